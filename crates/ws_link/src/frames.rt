//! Where the bytes of a WebSocket stand among its messages.

// What the next byte of a frame's head is.
#[derive(Clone, Copy, Debug, Drop)]
enum Head {
    // Its first byte: whether it ends a message, and what it is.
    Kind,
    // Its second byte: whether it is masked, and its length or how long its length is.
    Length,
    // So many bytes more of its length.
    Wide(u8),
}

/// How far the frames have come that went by. A frame has a head, and then so many bytes as its
/// length says, and a mask before them if it is masked.
#[derive(Debug, Drop)]
pub struct Frames {
    head: Head,
    length: u64,
    mask: u64,
    left: u64,
    is_open: bool,
}

impl Frames {
    /// No frame yet.
    pub fn new() -> Frames {
        Frames {
            head: Head::Kind,
            length: 0,
            mask: 0,
            left: 0,
            is_open: false,
        }
    }

    /// Whether every message that began has ended.
    pub fn are_between_messages(&self) -> bool {
        !self.is_open && self.left == 0 && matches!(self.head, Head::Kind)
    }

    /// These bytes went by.
    pub fn pass(&mut self, bytes: &[u8]) {
        let mut rest = bytes;
        while let [first, behind @ ..] = rest {
            if self.left == 0 {
                self.pass_head(*first);
                rest = behind;
            } else {
                let count = self.left.min(rest.len() as u64);
                self.left -= count;
                rest = &rest[count as usize..];
            }
        }
    }

    fn pass_head(&mut self, byte: u8) {
        match self.head {
            Head::Kind => {
                // A frame of kind 8 or more is no part of a message.
                if byte & 0x0f < 8 {
                    self.is_open = byte & 0x80 == 0;
                }
                self.head = Head::Length;
            }
            Head::Length => {
                self.mask = if byte & 0x80 == 0 { 0 } else { 4 };
                match byte & 0x7f {
                    126 => self.widen(2),
                    127 => self.widen(8),
                    length => self.begin(u64::from(length)),
                }
            }
            Head::Wide(more) => {
                let length = self.length.saturating_mul(256);
                self.length = length.saturating_add(u64::from(byte));
                if more > 1 {
                    self.head = Head::Wide(more - 1);
                } else {
                    self.begin(self.length);
                }
            }
        }
    }

    // The length follows, in so many bytes.
    fn widen(&mut self, more: u8) {
        self.length = 0;
        self.head = Head::Wide(more);
    }

    // So many bytes follow, behind the mask.
    fn begin(&mut self, length: u64) {
        self.left = length.saturating_add(self.mask);
        self.head = Head::Kind;
    }
}
