// A path that is known to be stored.
ghost use Rattle.path_stored.specs.Paths.{AreF32, held};
ghost use Rattle.path_stored.specs.Stored.{Stored};

use crate::path_buffers::PathBuffers;

// Five buffers that pass the check: what `PathBuffers::stored` gives.
#[derive(Clone, Copy)]
pub struct StoredPath<'a> {
    pub buffers: PathBuffers<'a>,
    pub ghost stored: { Stored (held buffers) },
    // The tables and the running lengths are f32 values.
    pub ghost values: { AreF32 buffers.tables.now × AreF32 buffers.lengths.now },
}
