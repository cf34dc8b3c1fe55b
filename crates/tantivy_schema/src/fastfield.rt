//! Values of fast fields.

pub use tv_term::FastValue;
