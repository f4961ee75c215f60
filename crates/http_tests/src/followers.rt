//! What a follower asks, publishes and waits, of which no contract speaks.
use crate::scenes::{
    EMPTY, EXPIRED, FollowerScene, LATER, LIST, Relisting, SAME, SAME_LATER, SEVEN_AND_HALF,
    UNTIL_NINE, first_of, first_unlike, first_unlisted, is_followed,
};
use api_client::Opened;
use scripted_api::{First, ScriptedWatch};
use std::alloc::Global;

/// A watch that is not opened.
const LOST: ScriptedWatch<'static> = ScriptedWatch {
    opened: Opened::Lost,
    pieces: &[],
    ends: false,
};

const REFUSED_FOR_NOW: ScriptedWatch<'static> = ScriptedWatch {
    opened: Opened::Refused {
        code: 429,
        retry_after: None,
    },
    pieces: &[],
    ends: false,
};

const GONE: ScriptedWatch<'static> = ScriptedWatch {
    opened: Opened::Expired,
    pieces: &[],
    ends: false,
};

const TOO_NEW: ScriptedWatch<'static> = ScriptedWatch {
    opened: Opened::Refused {
        code: 504,
        retry_after: None,
    },
    pieces: &[],
    ends: false,
};

/// A watch that is open, and expires, is no watch, or ends at once.
const EXPIRES: ScriptedWatch<'static> = ScriptedWatch {
    opened: Opened::Open,
    pieces: &[EXPIRED],
    ends: false,
};

const NO_FRAMES: ScriptedWatch<'static> = ScriptedWatch {
    opened: Opened::Open,
    pieces: &["no frame\n"],
    ends: false,
};

const ENDED: ScriptedWatch<'static> = ScriptedWatch {
    opened: Opened::Open,
    pieces: &[],
    ends: true,
};

/// Watches that lead to a list.
const RELISTINGS: [Relisting; 4] = [
    Relisting {
        watches: &[EXPIRES],
        firsts: &[],
        pauses: 1,
        told: (0, 0),
    },
    Relisting {
        watches: &[NO_FRAMES],
        firsts: &[SAME],
        pauses: 1,
        told: (1, 0),
    },
    Relisting {
        watches: &[GONE],
        firsts: &[],
        pauses: 1,
        told: (0, 0),
    },
    Relisting {
        watches: &[TOO_NEW],
        firsts: &[],
        pauses: 1,
        told: (0, 0),
    },
];

/// Watches that give nothing.
const BARREN: [ScriptedWatch<'static>; 4] = [EMPTY, ENDED, LOST, REFUSED_FOR_NOW];

/// What is said after those of the first object at their revision; nothing is asked after one that ended.
const ALWAYS_THE_SAME: [First; 2] = [SAME, SAME];

/// Returns whether a watch that gives nothing, twice, is asked for after a pause.
fn is_opened_again(alloc: Global, watch: ScriptedWatch<'static>) -> bool {
    let firsts: &'static [First<'static>] = if watch.ends { &[] } else { &ALWAYS_THE_SAME };
    let asked: &[u64] = if watch.ends {
        &[0, 5, 5, 5]
    } else {
        &[0, 5, 105, 5, 105, 5]
    };
    let watches = [watch, watch, UNTIL_NINE];
    let scene = FollowerScene {
        lists: &[LIST],
        firsts,
        watches: &watches,
        refusals: 0,
        most: usize::MAX,
        asked,
        published: &[5, 9],
        pauses: &[800, 1_600],
        counts: (1, 1, 1),
        told: (0, 0),
    };
    is_followed(alloc, &scene, false)
}

/// Returns the first of these watches that is not asked for so.
fn first_given_up(alloc: Global) -> Option<usize> {
    for (place, &watch) in BARREN.iter().enumerate() {
        if !is_opened_again(alloc, watch) {
            return Some(place);
        }
    }
    None
}

/// Returns whether a watch goes on after a cut, where so many changes are not taken at first: those are given again after these pauses.
fn goes_on(alloc: Global, refusals: u64, pauses: &[u64]) -> bool {
    let scene = FollowerScene {
        lists: &[LIST],
        firsts: &[SAME_LATER],
        watches: &[SEVEN_AND_HALF, UNTIL_NINE],
        refusals,
        most: usize::MAX,
        asked: &[0, 5, 107, 7],
        published: &[5, 7, 9],
        pauses,
        counts: (1, 1, 1),
        told: (0, 0),
    };
    is_followed(alloc, &scene, false)
}

/// How many changes are not taken at first, and the pauses after these.
const REFUSALS: [(u64, &[u64]); 2] = [(0, &[]), (2, &[800, 1_600])];

/// Returns the first number of refusals at which a watch does not go on so.
fn first_stopped(alloc: Global) -> Option<usize> {
    for (place, &(refusals, pauses)) in REFUSALS.iter().enumerate() {
        if !goes_on(alloc, refusals, pauses) {
            return Some(place);
        }
    }
    None
}

/// A watch that is refused by a server that asks to be left alone for two seconds.
const LEAVE_ALONE: ScriptedWatch<'static> = ScriptedWatch {
    opened: Opened::Refused {
        code: 429,
        retry_after: Some(2),
    },
    pieces: &[],
    ends: false,
};

const SCENES: [FollowerScene; 3] = [
    // a server that asks to be left alone is, for as long: the first object is asked for after two seconds, and not after 0.8
    FollowerScene {
        lists: &[LIST],
        firsts: &[SAME],
        watches: &[LEAVE_ALONE, UNTIL_NINE],
        refusals: 0,
        most: usize::MAX,
        asked: &[0, 5, 105, 5],
        published: &[5, 9],
        pauses: &[2_000],
        counts: (1, 1, 1),
        told: (0, 0),
    },
    // lists that fail are asked for after longer pauses
    FollowerScene {
        lists: &["", "{}", "", "", "", "", "", LATER],
        firsts: &[],
        watches: &[],
        refusals: 0,
        most: usize::MAX,
        asked: &[0, 0, 0, 0, 0, 0, 0, 0],
        published: &[9],
        pauses: &[800, 1_600, 3_200, 6_400, 12_800, 25_600, 30_000],
        counts: (0, 1, 0),
        told: (1, 0),
    },
    // a clock stops a follower that waits
    FollowerScene {
        lists: &[],
        firsts: &[],
        watches: &[],
        refusals: 0,
        most: 3,
        asked: &[0, 0, 0],
        published: &[],
        pauses: &[800, 1_600, 3_200],
        counts: (0, 0, 0),
        told: (0, 0),
    },
];

/// Returns the table, and the place in it, of the first script that is not followed as it says, in the order in which the tables stand above.
fn first_unfollowed(alloc: Global) -> Option<(usize, usize)> {
    let firsts = [
        first_unlisted(alloc, &RELISTINGS),
        first_given_up(alloc),
        first_stopped(alloc),
        first_unlike(alloc, &SCENES, false),
    ];
    first_of(&firsts)
}

#[test]
fn scripts_are_followed(rt: HostRuntime) {
    assert_eq!(rt; first_unfollowed(rt.alloc()), None);
}
