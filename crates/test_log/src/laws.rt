//! The laws that the crates state by functions: each is called, and has nothing to do.

#[test]
fn the_laws_are_stated() {
    log_text::laws::prefixes_read();
    log_text::laws::written_reads();
    log_text::laws::read_stands();
    log_text::laws::reads_batches();
    log_text::laws::prefixes_pass();
    log_text::laws::ends_pass();
    log_text::laws::batches_kept();
    log_text::laws::lost_refused();
    log_text::laws::one_text();
    log_text::laws::spells_plain();
    checkpoint_text::laws::one_text();
    silo_checkpoint::laws::one_saved();
    log_host::laws::crash_leaves();
    log_host::laws::at_each_moment();
    log_host::laws::starts_settled();
    log_host::laws::lives_last();
    log_host::laws::lasts_on();
    log_answer::laws::silos_grow();
    log_answer::laws::starts_go_on();
    log_answer::laws::starts_tell();
    log_answer::laws::own_taken();
    log_answer::laws::silos_last();
    log_answer::laws::lines_lead_on();
    log_answer::laws::logs_apart();
}
