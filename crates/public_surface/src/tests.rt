//! The public surface, a line each. Who changes a signature, a field or a variant changes a line.

mod outcomes;
mod outside;
mod search;
mod shapes;
