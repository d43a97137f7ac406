//! Tests over ports of memory: calls that fail, are interrupted or would block; texts written as packets, packets read one by one, and the
//! texts that they carry; bare streams with another code book, which no command writes or reads; and streams without an end. What a command
//! shows is in cases/.
//!
//! Layer: tests and examples, no part of the program. It uses `base_122`, `port_122`, `plane_defs`, `packet_defs`, `bit_pipe`, `code_book`,
//! `space_packets` and 3 more.
#![tactic(auto)]

#[cfg(test)]
mod bare_read;
#[cfg(test)]
mod bare_written;
#[cfg(test)]
mod endless_bare;
#[cfg(test)]
mod endless_packets;
#[cfg(test)]
mod examples;
#[cfg(test)]
mod heights;
#[cfg(test)]
mod packets_read;
#[cfg(test)]
mod packets_written;
#[cfg(test)]
mod ports;
#[cfg(test)]
mod texts;
