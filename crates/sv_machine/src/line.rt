// What a step prints.
use sv_value::{Seq, Side};

/// A printed text, with the side of the process that printed it.
#[derive(Drop)]
pub struct Line {
    pub side: Side,
    pub text: Seq<u8>,
}
