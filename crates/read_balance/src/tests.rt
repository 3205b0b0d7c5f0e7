//! Choices worked out by hand.
use crate::pick;
use pool_base::BackendSet;

/// The weights of three backends.
const WEIGHTS: [u32; 3] = [1, 0, 3];

#[test]
fn backends_take_turns_by_their_weights(rt: HostRuntime) {
    let attached = BackendSet { bits: 7 };
    assert_eq!(rt; pick(&WEIGHTS, attached, 0).number, 0);
    assert_eq!(rt; pick(&WEIGHTS, attached, 1).number, 2);
    assert_eq!(rt; pick(&WEIGHTS, attached, 3).number, 2);
    assert_eq!(rt; pick(&WEIGHTS, attached, 4).number, 0);
}

#[test]
fn a_backend_alone_answers_though_it_has_no_weight(rt: HostRuntime) {
    let attached = BackendSet { bits: 2 };
    assert_eq!(rt; pick(&WEIGHTS, attached, 0).number, 1);
    assert_eq!(rt; pick(&WEIGHTS, attached, 5).number, 1);
}
