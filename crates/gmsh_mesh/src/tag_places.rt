//! Places of tags: a mesh names its nodes by tags, in any order and with gaps, and its cells name nodes by these.
//!
//! `tag_places` finds for each key the tag that it is, in n log n, or tells the first tag that stands twice or the
//! first key that is no tag.
mod finding;
mod joining;
mod refusal;

pub use finding::tag_places;
pub use refusal::TagRefusal;
