//! The laws of what trees spell, at a set without blobs.

use repo_tree::laws::{
    BlobSet, config_texts_are_one, deepest_is_empty, empty_spells, joined_go_on, joined_grow,
    nodes_go_on, nodes_grow, nodes_make_spelled, reach_stays, reached_is_there,
    snapshot_texts_are_one, spelled_has_nodes, spells_grow, spells_move, spells_one,
    tree_texts_are_one,
};

struct NoBlobs;

impl BlobSet for NoBlobs {
    ghost has = { λ _ _. ⊥ };
}

#[test]
fn laws_hold_of_no_blobs() {
    tree_texts_are_one();
    snapshot_texts_are_one();
    config_texts_are_one();
    spells_one::<NoBlobs, NoBlobs>();
    spells_grow::<NoBlobs, NoBlobs>();
    spells_move::<NoBlobs, NoBlobs>();
    reached_is_there::<NoBlobs>();
    reach_stays::<NoBlobs, NoBlobs>();
    empty_spells::<NoBlobs>();
    nodes_make_spelled::<NoBlobs>();
    spelled_has_nodes::<NoBlobs>();
    deepest_is_empty::<NoBlobs>();
    joined_go_on::<NoBlobs>();
    nodes_go_on::<NoBlobs>();
    joined_grow::<NoBlobs, NoBlobs>();
    nodes_grow::<NoBlobs, NoBlobs>();
}
