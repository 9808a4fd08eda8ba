//! What a heap consists of.
use lxr_graph::Names;
use lxr_image::Space;
use lxr_large_bodies::Bodies;

/// A space for objects, the bodies of those that are large, and what is to be known of both.
#[derive(Drop)]
pub struct Heap {
    pub space: Space,
    pub bodies: Bodies,
    /// The names that died since the last pause and are reclaimed already: the next pause reports them. It has the room that the dead of a
    /// report have.
    pub gone: Names,
    /// How many objects were made.
    pub made: u32,
    /// How many of them were made before the last pause.
    pub made_before: u32,
    /// How many objects the last pause left, without the world.
    pub left: u32,
    /// Whether the last pause collected, and only operations came behind it that were refused for want of room.
    pub fresh: bool,
}
