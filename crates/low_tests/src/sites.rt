//! What no clause says, and a small caller that is proved.
mod calls;
mod failing;
mod stops;
mod uses;
