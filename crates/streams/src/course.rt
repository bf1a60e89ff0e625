//! What became of a request so far (RFC 9113, section 8.1).

ghost use Rattle.std.specs.Prelude.{◌≡◌, ◌+◌, ◌≤◌, true, false, nat_lt, None, Some, List, Bool, [], ◌∷◌, ℕ, length};
ghost use Rattle.model.specs.Messages.{Field, Item, ends_with};
ghost use Rattle.model.specs.Messages.Item.{Block};
ghost use Rattle.model.specs.Http2.{body_of, declared_length};
ghost use Rattle.model.specs.Malformed.{declared as declared_by};
ghost use Rattle.theory_errors.specs.Rows.{fresh};
ghost use Rattle.theory_errors.specs.Owing.{outline_behind};
ghost use Rattle.streams.specs.Courses.{is_malformed_with, outline_with};
ghost use Rattle.local_replies.specs.Views.{cause_of};
ghost use Rattle.streams.specs.Views.{outline_of};

use local_replies::Cause;

/// The gateway's own reply to a request.
#[derive(Clone, Copy, Debug, PartialEq, Eq)]
pub struct Reply {
    /// Why it is given.
    pub cause: Cause,
    /// Whether the final head of a response was out when the cause came.
    pub head_out: bool,
}

/// What is needed of the request of a stream, and of the gateway's own reply to it, if there is one.
#[derive(Clone, Copy, Debug, PartialEq, Eq)]
pub struct Course {
    /// Whether its head came (RFC 9113, section 8.1).
    pub begun: bool,
    /// The octets of its body that its head declares (RFC 9113, section 8.1.1).
    pub declared: Option<u64>,
    /// The octets of its body that came.
    pub octets: u32,
    /// Whether it has come to its end. Nothing more of it is looked at then, nor behind a reply.
    pub over: bool,
    /// The gateway's own reply to it.
    pub reply: Option<Reply>,
}

impl Course {
    /// That of a stream on which nothing came.
    pub fn new() -> Course
        ensures { outline_of result ≡ fresh.outline }
    {
        Course {
            begun: false,
            declared: None,
            octets: 0,
            over: false,
            reply: None,
        }
    }

    /// Whether so many octets more of the body, which end the request or don't, make it malformed:
    /// past what its head declares, or short of it at the end (RFC 9113, section 8.1.1). No request
    /// is to which the gateway replies itself.
    pub fn is_malformed_with(&self, count: u32, ends: bool) -> bool
        ensures { (octets : List ℕ) → length octets ≡ count → result ≡ is_malformed_with octets ends (outline_of self.now) }
    {
        let octets = u64::from(self.octets) + u64::from(count);
        match (self.reply, self.declared) {
            (None, Some(declared)) => octets > declared || ends && octets != declared,
            _ => false,
        }
    }

    /// The course behind so many octets of the body, which end the request or don't. Where the body
    /// is longer with them than `max_body` octets, the gateway replies itself (RFC 9110, section
    /// 15.5.14), with the final head of a response out or not.
    pub fn with_content(self, count: u32, ends: bool, max_body: u64, head_out: bool) -> Course
        requires bounded { max_body ≤ 1073741824 }
        ensures { (octets : List ℕ) → length octets ≡ count → outline_of result ≡ outline_with octets ends max_body head_out (outline_of self) }
    {
        if self.is_past(max_body, count) {
            return self.replied(Cause::LargeBody, head_out);
        }
        self.behind(None, count, ends)
    }

    /// Whether so many octets more make the body longer than this.
    fn is_past(&self, most: u64, count: u32) -> bool
        ensures { result ≡ nat_lt most ((outline_of self.now).octets + count) }
    {
        most < u64::from(self.octets) + u64::from(count)
    }

    /// The course behind a header block, which ends the request or doesn't, and to which the
    /// gateway needn't reply itself: the head, with the length that it declares, if it does; or
    /// trailers, whose fields declare nothing.
    pub fn with_block(self, declared: Option<u64>, ends: bool) -> Course
        ensures { (fields : List Field) (out : Bool) → (self.begun ≡ false → declared_length fields ≡ declared)
            → outline_of result ≡ outline_behind (outline_of self) false (Block fields ends ∷ []) None out }
    {
        self.behind(declared, 0, ends)
    }

    /// The course behind an item with so many octets of the body, which declares this where it is the first.
    fn behind(self, declared: Option<u64>, count: u32, ends: bool) -> Course
        requires fits { self.octets + count ≤ 4294967295 }
        ensures { (item : Item) (out : Bool) → length (body_of (item ∷ [])) ≡ count → ends_with item ≡ ends
            → (self.begun ≡ false → declared_by (item ∷ []) ≡ declared) → outline_of result ≡ outline_behind (outline_of self) false (item ∷ []) None out }
    {
        if self.over || self.reply.is_some() {
            return self;
        }
        Course {
            begun: true,
            declared: if self.begun { self.declared } else { declared },
            octets: self.octets + count,
            over: ends,
            ..self
        }
    }

    /// The course behind what the gateway replies to itself, whatever it brings: the first such
    /// reply stays, and nothing more is looked at.
    pub fn replied(self, cause: Cause, head_out: bool) -> Course
        ensures { (items : List Item) → outline_of result ≡ outline_behind (outline_of self) true items (Some (cause_of cause)) head_out }
    {
        Course {
            over: true,
            reply: Some(self.reply.unwrap_or(Reply { cause, head_out })),
            ..self
        }
    }
}
