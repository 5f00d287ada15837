// Compares the library's results with those of the Rust crate mlx9064x 0.2.1. The stream in `stdin` is made by compare/sample.
#![tactic(auto)]

fn main() {
    runner::run();
}
