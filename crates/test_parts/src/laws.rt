//! The laws that the crates state by functions: each is called, and has nothing to do.

#[test]
fn the_laws_are_stated() {
    grain_id::laws::reading_gives_back();
    request_codec::laws::one_spelling();
    request_codec::laws::no_prefix();
    grain_logic::laws::lawful();
    grain_logic::laws::counters_keep_same();
    grain_kinds::laws::lawful();
    grain_kinds::laws::kinds_keep_same();
    silo_event::laws::texts_are_visible();
    journal_text::laws::one_line();
    journal_text::laws::plain_line();
    journal_text::laws::one_text();
    journal_text::laws::one_journal();
    journal_text::laws::one_first_fault();
    journal_text::laws::migrated_is_same();
    journal_text::laws::written_stays();
}
