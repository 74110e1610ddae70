//! The text of certificates.
#![tactic(auto)]

mod bounds;
mod cert_print;
mod cert_read;
mod laws;
mod members;

pub use cert_print::print_cert;
pub use cert_read::read_cert;
pub use laws::cert_texts_are_short;
