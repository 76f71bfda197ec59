//! Measures how long loading takes: the forest and the layout of a document, and a sum of positions
//! through the elements of `gltf_accessors` and by a plain loop over the same bytes.

ghost use Rattle.std.specs.Prelude.{◌≡◌, ◌+◌, ◌≤◌, true, length, take, drop, IfOk};
ghost use Rattle.gltf_accessors.specs.Numbers.{is_finite};
ghost use Rattle.gltf_bench.specs.Positions.{IsSpanOf, AreFinite};

use crate::{ROUNDS, nanos_since, print_row};
use anyhow::{Result, ensure};
use gltf_json::Root;
use gltf_load::{Document, Elements, Floats, Forest, Layout, Span};
use std::alloc::{AllocError, Global};
use std::time::Instant;

/// How many bytes a position has: three floats.
const POSITION_LEN: usize = 12;

/// What is measured.
#[derive(Clone, Copy)]
enum Task {
    Forest,
    Layout,
}

/// Each task, and the name that it is printed under.
const TASKS: [(Task, &str); 2] = [(Task::Forest, "Forest::of"), (Task::Layout, "Layout::of")];

/// Prints the rows of the tasks, and those of a sum of as many bytes of positions.
pub fn report_all(rt: &HostRuntime, root: &Root, len: usize) -> Result<()> {
    let document = Document::of(root);
    for (task, name) in TASKS {
        let mut rounds = Vec::with_capacity(rt.alloc(), ROUNDS)?;
        for _ in 0..ROUNDS {
            rounds.push(time(rt, task, &document)?)?;
        }
        print_row(rt, name, rounds, len)?;
    }
    report_sums(rt, len / POSITION_LEN)
}

/// The nanoseconds that a task takes once, without the drop of what it makes.
fn time(rt: &HostRuntime, task: Task, document: &Document<'_>) -> Result<u64> {
    let start = Instant::now(rt)?;
    match task {
        Task::Forest => {
            let forest = Forest::of(rt.alloc(), document)?;
            let nanos = nanos_since(rt, &start)?;
            drop(forest);
            Ok(nanos)
        }
        Task::Layout => {
            let layout = Layout::of(rt.alloc(), document)?;
            let nanos = nanos_since(rt, &start)?;
            drop(layout);
            Ok(nanos)
        }
    }
}

/// Prints the rows of two sums of so many positions.
fn report_sums(rt: &HostRuntime, count: usize) -> Result<()> {
    let bytes = positions(rt.alloc(), count)?;
    time_sums(rt, &bytes, &floats_of(&bytes)?)
}

/// Prints the rows of two sums of the same positions, which take turns.
fn time_sums(rt: &HostRuntime, bytes: &[u8], floats: &Floats<'_, 3>) -> Result<()>
    requires bytes { floats.now.elements.bytes.now ≡ bytes.now }
    requires span { IsSpanOf (length bytes.now) floats.now.elements.span }
{
    let mut elements_rounds = Vec::with_capacity(rt.alloc(), ROUNDS)?;
    let mut plain_rounds = Vec::with_capacity(rt.alloc(), ROUNDS)?;
    for _ in 0..ROUNDS {
        let start = Instant::now(rt)?;
        let by_elements = sum_of_elements(floats);
        elements_rounds.push(nanos_since(rt, &start)?)?;
        let start = Instant::now(rt)?;
        let by_loop = plain_sum(bytes);
        plain_rounds.push(nanos_since(rt, &start)?)?;
        ensure!(by_elements == by_loop, "the sums differ");
    }
    print_row(rt, "sum of Floats<3>", elements_rounds, bytes.len())?;
    print_row(rt, "sum by a plain loop", plain_rounds, bytes.len())
}

/// The bytes of so many positions, each coordinate of which is at least 1 and below 1.125.
fn positions(alloc: Global, count: usize) -> Result<Vec<u8>, AllocError> {
    let mut bytes = Vec::with_capacity(alloc, count.saturating_mul(POSITION_LEN))?;
    for place in 0..count.saturating_mul(3) {
        let bits = 0x3F80_0000 + (place % 0x10_0000) as u32;
        bytes.extend_from_slice(&bits.to_le_bytes())?;
    }
    Ok(bytes)
}

/// The positions in bytes, one behind the other.
fn floats_of(bytes: &[u8]) -> Result<Floats<'_, 3>>
    ensures bytes { IfOk result (λ f. f.elements.bytes.now ≡ bytes.now) }
    ensures span { IfOk result (λ f. IsSpanOf (length bytes.now) f.elements.span) }
{
    let span = Span {
        start: 0,
        stride: 12,
        size: 12,
        count: (bytes.len() / POSITION_LEN) as u64,
    };
    Ok(Floats::of(Elements::of(bytes, &span)?)?)
}

/// The sum of positions, read as elements.
#[inline(never)]
fn sum_of_elements(floats: &Floats<'_, 3>) -> [f32; 3] {
    let mut sum = [0.0; 3];
    for index in 0..floats.len() {
        let [x, y, z] = floats.get(index);
        sum = [sum[0] + x, sum[1] + y, sum[2] + z];
    }
    sum
}

/// The sum of positions, read in place. `f32::from_le_bytes` requires that no float is NaN.
#[inline(never)]
fn plain_sum(bytes: &[u8]) -> [f32; 3]
    requires { AreFinite bytes.now }
{
    let mut sum = [0.0; 3];
    for index in 0..bytes.len() / POSITION_LEN {
        let x = float_at(bytes, 12 * index);
        let y = float_at(bytes, 12 * index + 4);
        let z = float_at(bytes, 12 * index + 8);
        sum = [sum[0] + x, sum[1] + y, sum[2] + z];
    }
    sum
}

/// The float at a place.
#[inline(always)]
#[tactic(auto, using(std::proofs::lemmas::Float::not_nan_f32_bits))]
fn float_at(bytes: &[u8], start: usize) -> f32
    requires within { start + 4 ≤ length bytes.now }
    requires finite { is_finite (take 4 (drop start bytes.now)) ≡ true }
{
    f32::from_le_bytes(four_at(bytes, start))
}

/// The four bytes at a place.
#[inline(always)]
fn four_at(bytes: &[u8], start: usize) -> [u8; 4]
    requires { start + 4 ≤ length bytes.now }
    ensures { result ≡ take 4 (drop start bytes.now) }
{
    match bytes[start..].split_first_chunk() {
        Some((four, _)) => *four,
        None => unreachable!(),
    }
}
