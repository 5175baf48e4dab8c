//! Laws of the definitions that the contracts cite.

ghost use Rattle.std.specs.Prelude.{◌≡◌, ◌≢◌, ◌<◌, ◌≤◌, ◌^◌, ◌↔◌, ◌&&◌, ◌||◌, not, ℕ, Bool, true, false, List, length, map, Contains};
ghost use Rattle.std.specs.Prelude.{IsSorted, Option, Some, Result, Ok, Err};
ghost use Rattle.std.specs.List.{flat_map, list_all};
ghost use Rattle.std.specs.Str.{is_utf8};
ghost use Rattle.std.specs.Cmp.Lexicographic.{slice_cmp};
ghost use Rattle.std.specs.Ordering.{nat_cmp};
ghost use Rattle.filter_expr.specs.declared.case.Case.{Case};
ghost use Rattle.profile.specs.declared.profile.Profile.{Profile};
ghost use Rattle.profile.specs.declared.profile.Profile.TheVariants.{Wide};
ghost use Rattle.command_text.specs.declared.command.NamedCommand.{NamedCommand};
ghost use Rattle.command_text.specs.declared.command.finding.FindingCommand.{FindingCommand};
ghost use Rattle.command_text.specs.declared.name.CommandName.{CommandName};
ghost use Rattle.command_text.specs.declared.place.Place.{Place};
ghost use Rattle.command_text.specs.declared.refusal.CommandRefusal.{CommandRefusal};
ghost use Rattle.command_text.specs.declared.refusal.Refusal.{Refusal};
ghost use Rattle.command_text.specs.Words.{AreWordsOfLine, words_of};
ghost use Rattle.filter_expr.specs.Words.{Refusal as FilterRefusal, filter_of};
ghost use Rattle.command_text.specs.BadFilters.{IsRefusedSo};
ghost use Rattle.command_text.specs.Counts.{Word};
ghost use Rattle.command_text.specs.Finding.{filter_alone, find_of, find_add_of};
ghost use Rattle.command_text.specs.Search.{Parts, ArePartedSo, IsAnswer, IsAnswerAlone, found_by, added_by};
ghost use Rattle.filter_expr.specs.Tree.{Tree};
ghost use Rattle.command_text.specs.Names.{name_text, all_names, is_known, named};
ghost use Rattle.command_text.specs.Refusals.{name_of_refusal};
ghost use Rattle.command_text.specs.Reading.{line_reading, name_of_line, want_of_memory};
ghost use Rattle.command_text.specs.Answer.{ack};
ghost use Rattle.command_text.specs.AnswerSongs.{tag_line, tag_lines};
ghost use Rattle.command_text.specs.Masks.{all_in_mask, empty_mask, has, only_tag, with_tags, without_tags};
ghost use Rattle.command_text.specs.declared.tag_mask.TagMask.{TagMask};
ghost use Rattle.song_files.specs.Tags.{TagText};
ghost use Rattle.song_files.specs.declared.tag.Tag.{Tag};
ghost use Rattle.command_text.specs.declared.answer.TheConstants.{WANT_OF_MEMORY_LENGTH};

/// A line has the words that the grammar gives it, and so at most one list of them.
pub fn words_are_the_grammar()
    ensures { (line : List ℕ) (words : List (List ℕ)) → (words_of line ≡ Some words) ↔ AreWordsOfLine line words }
{}

/// The words of a line that is UTF-8 are UTF-8, each of them: no word of a line that is read is refused for its bytes.
pub fn words_are_text()
    ensures { (line : List ℕ) (words : List (List ℕ)) →
        is_utf8 line ≡ true → words_of line ≡ Some words → list_all is_utf8 words ≡ true }
{}

/// Each list of words behind `find`, `search`, `findadd` and `searchadd` is read in exactly one way: as a filter's words and, behind
/// them, `sort`, `window` and, where songs are added, `position`, each with its value or left out, and what these say, a search or the
/// first fault with its place; or as a wrong count, where they don't part so. That is what the definitions give.
pub fn searches_have_one_reading()
    ensures once { (profile : Profile) (adds : Bool) (words : List Word) (p q : Parts) →
        ArePartedSo profile adds words p → ArePartedSo profile adds words q → p ≡ q }
    ensures found { (profile : Profile) (case : Case) (words : List Word) (answer : Result FindingCommand CommandRefusal) →
        (find_of profile case words ≡ answer) ↔ IsAnswer profile false (found_by profile case) words answer }
    ensures added { (profile : Profile) (case : Case) (words : List Word) (answer : Result FindingCommand CommandRefusal) →
        (find_add_of profile case words ≡ answer) ↔ IsAnswer profile true (added_by profile case) words answer }
{}

/// The words of a filter behind which nothing stands, as those of `count`, are an expression or pairs, in the wide profile expressions
/// and pairs in any order, and are read as such; other words are a wrong count.
pub fn filters_alone_have_one_reading()
    ensures { (profile : Profile) (words : List Word) (answer : Result Tree CommandRefusal) →
        (filter_alone profile words ≡ answer) ↔ IsAnswerAlone profile words answer }
{}

/// Where words are no filter, one word is the fault, and whatever stands behind it, they are refused in the same way and at the
/// same place; or the fault is that no more words stand there.
pub fn a_bad_filter_stays_bad()
    ensures { (profile : Profile) (words : List Word) (refusal : FilterRefusal) →
        filter_of profile words ≡ Err refusal → IsRefusedSo profile words refusal }
{}

/// Each name is listed; where the profile knows it, the command is found by its text, and by no other word; the wide profile knows all.
pub fn names_are_found()
    ensures rising { IsSorted (slice_cmp nat_cmp) (map name_text all_names) }
    ensures listed { (name : CommandName) → Contains all_names name }
    ensures found { (profile : Profile) (name : CommandName) → is_known profile name ≡ true → named profile (name_text name) ≡ Some name }
    ensures only { (profile : Profile) (word : List ℕ) (name : CommandName) → named profile word ≡ Some name →
        (name_text name ≡ word) × (is_known profile name ≡ true) }
    ensures all { (name : CommandName) → is_known Wide name ≡ true }
{}

/// Whether a line is read or refused, its command is named in the same way.
pub fn a_line_has_one_name()
    ensures read { (profile : Profile) (place : Place) (line : List ℕ) (read : NamedCommand) →
        line_reading profile place line ≡ Ok read → name_of_line profile line ≡ Some read.name }
    ensures refused { (profile : Profile) (place : Place) (line : List ℕ) (refusal : Refusal) →
        line_reading profile place line ≡ Err refusal → name_of_refusal refusal ≡ name_of_line profile line }
{}

/// How long a line of want of memory can be, so that its room can be taken before.
pub fn want_of_memory_fits()
    ensures { (index : ℕ) (name : Option CommandName) → index < 2 ^ 32 →
        length (ack index (want_of_memory name)) ≤ WANT_OF_MEMORY_LENGTH }
{}

/// A mask is a set of tags; where it has all of them, as at first, each text of a song has its line.
pub fn masks_are_sets()
    ensures empty { (tag : Tag) → has empty_mask tag ≡ false }
    ensures all { (tag : Tag) → has all_in_mask tag ≡ true }
    ensures only { (tag : Tag) → has (only_tag tag) tag ≡ true }
    ensures others { (tag other : Tag) → tag ≢ other → has (only_tag tag) other ≡ false }
    ensures with { (mask others : TagMask) (tag : Tag) → has (with_tags mask others) tag ≡ (has mask tag || has others tag) }
    ensures without { (mask others : TagMask) (tag : Tag) → others.bits < 2 ^ 64
        → has (without_tags mask others) tag ≡ (has mask tag && not (has others tag)) }
    ensures told { (texts : List TagText) → tag_lines all_in_mask texts ≡ flat_map tag_line texts }
{}
