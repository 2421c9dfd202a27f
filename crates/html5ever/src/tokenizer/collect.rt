//! A sink that keeps what it is sent.
pub use html5ever_interface::collect::Collector;
