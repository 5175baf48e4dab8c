//! What holds of every stream.
ghost use Rattle.std.specs.Prelude.{◌≡◌, ℕ, List, []};
ghost use Rattle.std.specs.List.{concat, AllByRecursion};
ghost use Rattle.client_session.specs.Lines.{taken_lines};
ghost use Rattle.client_session.specs.Reading.{AreRead, IsOfLines};
ghost use Rattle.client_session.specs.Requests.{after_lines, nothing, requests_in, requests_of, rest_of, requests_in_pieces, IsParted};
ghost use Rattle.client_session.specs.declared.listing.Listing.{Listing};
ghost use Rattle.client_session.specs.declared.listing.Listing.TheVariants.{Outside};
ghost use Rattle.command_text.specs.declared.request.Request.{Request};

/// In whatever pieces a stream comes, its requests are the same.
pub fn any_pieces()
    ensures { (pieces : List (List ℕ)) → requests_in_pieces nothing pieces ≡ requests_of (concat pieces) }
{}

/// There is one way to part a stream into the lines that are taken and a rest that begins with no further one.
pub fn one_parting()
    ensures parted { (stream : List ℕ) → IsParted stream (taken_lines stream) (rest_of stream) }
    ensures once { (stream : List ℕ) (lines : List (List ℕ)) (rest : List ℕ) → IsParted stream lines rest
        → (lines ≡ taken_lines stream) × (rest ≡ rest_of stream) }
{}

/// There is one way to read lines as requests, each on lines of its own, and what is left: a single line that begins no
/// list; or a list from its begin to its end, within the limits; at last nothing, an open list, or one past its limits.
pub fn one_reading()
    ensures read { (lines : List (List ℕ)) → AreRead lines (requests_in Outside lines) (after_lines Outside lines) }
    ensures once { (lines : List (List ℕ)) (asked : List Request) (left : Listing) → AreRead lines asked left
        → (asked ≡ requests_in Outside lines) × (left ≡ after_lines Outside lines) }
{}

/// No request of a stream is a single line that begins a list or is `noidle`, and no line of a list ends one: these are the
/// session's own.
pub fn requests_have_own_lines()
    ensures { (stream : List ℕ) → AllByRecursion IsOfLines (requests_of stream) }
{}
