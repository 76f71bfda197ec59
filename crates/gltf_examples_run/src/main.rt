//! Runs the examples of `gltf_examples` one after the other, over the documents in `data/`.
#![tactic(auto)]

fn main(rt: HostRuntime) -> anyhow::Result<()> {
    gltf_examples::run(rt)
}
