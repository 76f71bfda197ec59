//! Validation of types of users.

mod users;
