// Compares the library's results with those computed from the documents. The stream in `stdin` is made by cards/papers.
#![tactic(auto)]

fn main() {
    runner::run();
}
