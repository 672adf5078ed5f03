//! What holds of messages as bytes.
ghost use Rattle.std.specs.Prelude.{◌≡◌, ◌≤◌, ◌++◌, ◌⊎◌, [], List, ℕ, length, Some, Option as Maybe};
ghost use Rattle.merge_wire.specs.declared.fault.WireFault.{WireFault as AnyFault};
ghost use Rattle.merge_wire.specs.declared.fault.WireFault.TheVariants as fault;
ghost use Rattle.merge_wire.specs.Faults.{IsRequestFault, IsResponseFault, IsOfOutside};
ghost use Rattle.merge_wire.specs.declared.message.Message.{Message as AnyMessage};
ghost use Rattle.merge_wire.specs.Fields.{body_limit};
ghost use Rattle.merge_wire.specs.Messages.{IsRequest, IsResponse};
ghost use Rattle.merge_wire.specs.Written.{message_text, IsWritableRequest, IsWritableResponse};

/// What is written reads back, a request but for its host. Bytes begin with no two messages, and those
/// that begin with a message are at no fault. They are at one fault at the most, and so is a source.
pub fn message_laws()
    ensures requests_read_back { (m : AnyMessage) → IsWritableRequest m → length m.body ≤ body_limit → IsRequest (message_text m) (record m { host = [] }) }
    ensures responses_read_back { (m : AnyMessage) → IsWritableResponse m → length m.body ≤ body_limit → IsResponse (message_text m) m }
    ensures one_request { (bytes front other rest more : List ℕ) (m n : AnyMessage) → bytes ≡ front ++ rest → bytes ≡ other ++ more → IsRequest front m → IsRequest other n → m ≡ n }
    ensures one_response { (bytes : List ℕ) (m n : AnyMessage) → IsResponse bytes m → IsResponse bytes n → m ≡ n }
    ensures request_or_fault { (bytes front rest : List ℕ) (m : AnyMessage) (left : Maybe (List ℕ)) (count : ℕ) (e : AnyFault) → bytes ≡ front ++ rest → IsRequest front m → IsRequestFault (Some bytes) left count count e → (e ≡ fault.ReadFault) ⊎ (e ≡ fault.NoMemory) }
    ensures one_request_fault { (bytes : List ℕ) (left more : Maybe (List ℕ)) (count : ℕ) (e f : AnyFault) → IsRequestFault (Some bytes) left count count e → IsRequestFault (Some bytes) more count count f → (e ≡ f) ⊎ (IsOfOutside e ⊎ IsOfOutside f) }
    ensures response_or_fault { (bytes : List ℕ) (m : AnyMessage) (e : AnyFault) → IsResponse bytes m → IsResponseFault bytes e → e ≡ fault.NoMemory }
    ensures one_response_fault { (bytes : List ℕ) (e f : AnyFault) → IsResponseFault bytes e → IsResponseFault bytes f → (e ≡ f) ⊎ ((e ≡ fault.NoMemory) ⊎ (f ≡ fault.NoMemory)) }
{}
