// What whole calls put and answer where logs or files fail.
use std::alloc::{AllocError, Global};

mod outside;

fn words_of(alloc: Global, all: &[&str]) -> Result<Vec<String>, AllocError> {
    let mut words = Vec::new(alloc);
    for word in all {
        words.push(String::from_str(alloc, word)?)?;
    }
    Ok(words)
}
