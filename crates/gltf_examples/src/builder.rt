//! Builds a scene on a document that has no fault at any moment, and prints it.
#![tactic(auto)]

use anyhow::Result;
use gltf_json::validation::{Clean, Refused};
use gltf_json::{Index, Node, Scene};

pub fn main(rt: HostRuntime) -> Result<()> {
    let alloc = rt.alloc();
    let mut document = Clean::new(alloc)?;
    let mut node = Node::new();
    node.mesh = Some(Index::new(9));
    let index = match document.push_or_report(node) {
        Err(Refused::Faulty(mut node, report)) => {
            println!(rt; "refused: {report}")?;
            node.mesh = None;
            document.push(node)?
        }
        other => other?,
    };
    let scene = document.push(Scene::new(vec![in alloc; index]?))?;
    document.set_scene(Some(scene))?;
    println!(rt; "{}", document.root().to_string(alloc)?)?;
    Ok(())
}
