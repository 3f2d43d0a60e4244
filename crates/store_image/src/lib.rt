//! Images of a store: its pairs as bytes, in the order of their keys, and the image that a trace leaves.
//!
//! The layer above may rely on this: what is read is the image whose text the bytes are, and a fault is the first one in
//! the order of the format; what is written is the text, and an image has one. `image_of` gives an exact report of the
//! trace, and with it the pairs that all partitions have after the trace's writes. `writes_of` gives the puts of an image's pairs.
#![tactic(auto)]

mod fault;
mod image;
mod laws;
mod lines;
mod made;
mod reading;
mod writes;
mod writing;

pub use fault::ImageFault;
pub use image::Image;
pub use laws::{faultless_is_image, one_image, unpacked_is_image};
pub use lines::put_image;
pub use made::{Imaged, image_of};
pub use reading::read_image;
pub use writes::writes_of;
pub use writing::write_image;
