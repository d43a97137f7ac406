//! Several cameras on one link: puts the rows of cameras onto it, picks one camera's packets, or those of one of its images, from the packets
//! of a stream, and lists the images of a stream, with what is received of each.
//!
//! Layer: packets and pictures. It uses `base_122`, `port_122`, `raster_rows`, `wave_defs`, `segment_defs`, `packet_defs`, `stream_defs`
//! and 6 more. It is used by `strip122` and `strip122_c`.
#![tactic(auto)]

mod camera_rows;
mod giving;
mod image;
mod image_laws;
mod image_lines;
mod image_list;
mod image_table;
mod info;
mod laws;
mod mux;
mod muxing;
mod passing;
mod picked_laws;
mod picking;

pub use image::{ImageCount, ImageId};
pub use image_laws::{images_have_geometry, received_are_complete};
pub use image_list::list_images;
pub use info::{InfoDone, InfoFault, InfoWish};
pub use laws::cameras_are_kept;
pub use mux::{MuxDone, MuxFault};
pub use muxing::mux_rows;
pub use picked_laws::picking_keeps;
pub use picking::pick_packets;
