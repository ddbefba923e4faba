//! What goes over the wire.

/// What went over the wire.
#[derive(Clone, Copy, Debug, PartialEq, Eq, Drop)]
pub struct Traffic {
    /// How many questions were asked, each of which has its reply.
    pub messages: usize,
    /// How many bytes were sent.
    pub sent: usize,
    /// How many bytes came.
    pub came: usize,
}

impl Traffic {
    /// Nothing.
    pub(crate) fn none() -> Self {
        Traffic {
            messages: 0,
            sent: 0,
            came: 0,
        }
    }

    /// With a message of this many bytes that was sent and one of this many more that came, each with its length.
    pub(crate) fn with(&self, sent: usize, came: usize) -> Self {
        Traffic {
            messages: self.messages.saturating_add(1),
            sent: self.sent.saturating_add(sent).saturating_add(8),
            came: self.came.saturating_add(came).saturating_add(8),
        }
    }
}
