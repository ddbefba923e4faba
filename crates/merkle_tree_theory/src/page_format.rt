//! The two forms of a page's stream of bytes.

/// How a page is written as the stream of bytes that its digest is made of. Peers that compare their trees take one format: in
/// different formats trees of equal maps never look the same, as far as no digests collide.
#[derive(Clone, Copy, Debug, PartialEq, Eq)]
pub enum PageFormat {
    /// For each node the digest of the page below it, the bytes of its key and its value digest, and at the end the digest of the
    /// high page. It has no lengths and no level, so pages of unlike nodes can have one stream.
    V1,
    /// With a mark, the level and the number of nodes in front, the length of each key before its bytes, and a mark for each page
    /// below, also where there is none. The stream tells all these parts apart.
    V2,
}
