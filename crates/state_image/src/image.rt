use crate::front::Front;
use llog_store::Llog;
use object_store::Objects;

/// What a target commits: all that it has to know again after a stop.
#[derive(Drop)]
pub struct Image {
    /// Which target it is, its numbers and its seats.
    pub front: Front,
    /// Its objects.
    pub objects: Objects,
    /// Its update log.
    pub log: Llog,
}
