//! The laws of replicas and of schedules, each once.

use cadf_replica::laws as replicas;

/// Calls the laws of replicas and of schedules, which do nothing.
pub fn laws() {
    replicas::missing_is_least();
    replicas::joining_missing_equals_joining_all();
    replicas::missing_is_smallest_sufficient();
    replicas::replica_is_what_it_took();
    replicas::same_contributions_same_set();
    replicas::retries_are_idempotent();
    replicas::membership_laws();
    replicas::every_atom_is_shown_once();
    replicas::one_value_is_shown();
    replicas::show_is_idempotent();
    replicas::texts_determine_set();
    replicas::a_path_has_one_kind();
    replicas::replicas_converge();
    replicas::nothing_disappears();
    replicas::atom_line_is_read_back();
    replicas::atom_rules_match_documents();
    replicas::contributions_are_grounded();
    replicas::answer_with_inventory_covers_sender();
    replicas::rehearsal_equals_full_exchange();
}
