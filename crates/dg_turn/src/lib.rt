//! What a story's code for terms, queries, rules, choices and going back does to memory, as turns.
#![tactic(auto)]

mod laws;

pub use laws::{
    arith_turns, ask_begins, ask_turns, back_trying_turns, back_turns, begin_turns, branch_turns,
    collect_turns, commit_turns, compare_turns, enter_turns, equal_turns, fail_begins, fail_ends,
    fail_turns, found_turns, gap_n_turns, gap_turns, gatherings_are_paid, global_turns,
    globals_are_paid, goto_turns, input_is_paid, input_turns, join_turns, just_turns, keep_turns,
    landed_turns, last_turns, names_spell, none_tried_turns, none_turns, now_turns, once_turns,
    operations_are_paid, pick_turns, print_turns, quit_turns, random_turns, read_global_turns,
    return_turns, seek_turns, select_turns, split_turns, starts_fit, take_turns, terms_work,
    test_turns, text_turns, tries_are_paid, try_turns, turns_are_paid, words_are_paid,
    world_is_paid, world_stands,
};
