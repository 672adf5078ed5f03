//! What holds of the forms. These functions do nothing: their contracts are the laws.
ghost use Rattle.std.specs.Prelude.{◌≡◌, ◌↔◌, ℕ, ℤ, List, Some};
ghost use Rattle.merge_types.specs.Day.{IsDayText};
ghost use Rattle.merge_batch.specs.declared.refusal.Refusal.{Refusal as AnyRefusal};
ghost use Rattle.merge_batch.specs.declared.reply.Reply.{Reply as AnyReply};
ghost use Rattle.merge_batch.specs.declared.request.Kind.{Kind as AnyKind};
ghost use Rattle.merge_batch.specs.declared.request.Request.{Request as AnyRequest};
ghost use Rattle.merge_batch.specs.Refusals.{reply_to};
ghost use Rattle.merge_json.specs.Days.{day_of};
ghost use Rattle.merge_json.specs.Messages.{IsSent, IsSentBad, IsAnswered, IsAnsweredBad};
ghost use Rattle.merge_json.specs.Sendable.{IsSendableReply};

/// A text is read as a day just where it is the date of it, and a reply that tells a refusal has a
/// form.
pub fn form_laws()
    ensures days { (text : List ℕ) (day : ℤ) → day_of text ≡ Some day ↔ IsDayText text day }
    ensures refusals { (refused : AnyRefusal) (reply : AnyReply) → reply_to refused ≡ Some reply → IsSendableReply reply }
{}

/// A body that went to a path is of one request and no place of it is bad, or one place is bad and it
/// is of none.
pub fn request_laws()
    ensures one_request { (path body : List ℕ) (r s : AnyRequest) → IsSent path body r → IsSent path body s → r ≡ s }
    ensures sent_or_bad { (path body : List ℕ) (r : AnyRequest) (place : ℕ) → IsSent path body r → IsSentBad path body place → ⊥ }
    ensures one_bad_place { (path body : List ℕ) (m n : ℕ) → IsSentBad path body m → IsSentBad path body n → m ≡ n }
{}

/// The same of replies of a kind.
pub fn reply_laws()
    ensures one_reply { (kind : AnyKind) (body : List ℕ) (r s : AnyReply) → IsAnswered kind body r → IsAnswered kind body s → r ≡ s }
    ensures answered_or_bad { (kind : AnyKind) (body : List ℕ) (r : AnyReply) (place : ℕ) → IsAnswered kind body r → IsAnsweredBad kind body place → ⊥ }
    ensures one_bad_place { (kind : AnyKind) (body : List ℕ) (m n : ℕ) → IsAnsweredBad kind body m → IsAnsweredBad kind body n → m ≡ n }
{}
