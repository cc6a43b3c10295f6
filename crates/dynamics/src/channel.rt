//! The numbers of one gust channel, not yet checked.

/// How a gust acts on the four parts, and the centre and radius of the gusts themselves.
#[derive(Clone, Copy)]
pub struct Channel {
    pub gains: [i64; 4],
    pub centre: i64,
    pub radius: i64,
}
