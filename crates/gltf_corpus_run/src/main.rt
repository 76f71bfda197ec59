//! Goes through the documents, calls and files in `data/`, and prints what becomes of them below a
//! heading for each: `gltf_corpus_run PATH..`, with the files whose elements are printed.
#![tactic(auto)]

fn main(rt: HostRuntime) -> anyhow::Result<()> {
    println!(rt; "== documents")?;
    gltf_corpus::print_documents(&rt)?;
    println!(rt; "== calls")?;
    gltf_corpus::print_calls(&rt)?;
    println!(rt; "== elements")?;
    gltf_corpus_files::print_elements(&rt)?;
    println!(rt; "== findings")?;
    gltf_corpus_files::print_findings(&rt)
}
