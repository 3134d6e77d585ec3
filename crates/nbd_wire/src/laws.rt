//! Each value has one spelling, and no spelling begins another of its kind, but for the data of a simple reply.
ghost use Rattle.std.specs.Prelude.{◌≡◌, ℕ, List, ◌++◌, ◌<◌, ◌^◌, length};
ghost use Rattle.nbd_wire.specs.declared.requests.RequestHead.{RequestHead};
ghost use Rattle.nbd_wire.specs.Grammar.{IsHead, IsRequest, RequestMessage, ReplyMessage, IsReply, IsOption, IsOptionReply, head_text, request_text, reply_text, option_head_text, option_text, option_reply_text};

/// Where the head of a request begins some bytes, they tell which, and where it ends.
pub fn one_head()
    ensures { (a b : RequestHead) (x y : List ℕ) → IsHead a → IsHead b
        → head_text a ++ x ≡ head_text b ++ y → (a ≡ b) × (x ≡ y) }
{}

/// Where a request begins some bytes, they tell which, and where it ends.
pub fn one_request()
    ensures { (a b : RequestMessage) (x y : List ℕ) → IsRequest a → IsRequest b
        → request_text a ++ x ≡ request_text b ++ y → (a ≡ b) × (x ≡ y) }
{}

/// Where the head of an option begins some bytes, they tell its number and length, and where it ends.
pub fn one_option_head()
    ensures { (a b c d : ℕ) (x y : List ℕ) → a < 2 ^ 32 → b < 2 ^ 32 → c < 2 ^ 32 → d < 2 ^ 32
        → option_head_text a b ++ x ≡ option_head_text c d ++ y → (a ≡ c) × (b ≡ d) × (x ≡ y) }
{}

/// Where an option begins some bytes, they tell its number and its data, and where it ends.
pub fn one_option()
    ensures { (a b : ℕ) (c d x y : List ℕ) → IsOption a c → IsOption b d
        → option_text a c ++ x ≡ option_text b d ++ y → (a ≡ b) × (c ≡ d) × (x ≡ y) }
{}

/// Where a reply begins some bytes and the length of its content is known, they tell which, and where it ends.
pub fn one_reply()
    ensures { (a b : ReplyMessage) (x y : List ℕ) → IsReply a → IsReply b
        → length a.content ≡ length b.content
        → reply_text a ++ x ≡ reply_text b ++ y → (a ≡ b) × (x ≡ y) }
{}

/// Where a reply to an option begins some bytes, they tell its option, its kind and its data, and where it ends.
pub fn one_option_reply()
    ensures { (o k p l : ℕ) (c d x y : List ℕ) → IsOptionReply o k c → IsOptionReply p l d
        → option_reply_text o k c ++ x ≡ option_reply_text p l d ++ y → (o ≡ p) × (k ≡ l) × (c ≡ d)
        × (x ≡ y) }
{}
