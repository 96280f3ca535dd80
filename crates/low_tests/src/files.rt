//! The files of a folder, of what no clause says: the bytes that reach files and come back, the lock, and what is
//! refused.
mod calls;
mod locks;
mod refusals;
mod sources;
mod steps;
