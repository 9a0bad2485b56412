// The five buffers of a path as one value.
#[derive(Clone, Copy)]
pub struct PathBuffers<'a> {
    pub kinds: &'a [u8],
    pub fields: &'a [f32],
    pub tables: &'a [f32],
    pub lengths: &'a [f32],
    // The number of each segment's command, from 0.
    pub commands: &'a [u32],
}
