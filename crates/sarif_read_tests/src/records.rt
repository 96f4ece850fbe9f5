//! How logs and results are read.
mod indexing;
mod reading;
mod referring;
mod stripping;
