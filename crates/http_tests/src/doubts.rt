//! How a follower knows a server again, after a watch that was cut.
use crate::scenes::{
    EMPTY, EXPIRED, FollowerScene, LATER, LIST, Relisting, SAME, SAME_LATER, UNTIL_NINE, first_of,
    first_unlike, first_unlisted,
};
use api_client::Opened;
use scripted_api::{First, ScriptedWatch};
use std::alloc::Global;

/// The first object at revision 5, created at another moment; written at another revision; and none.
const CREATED_ANEW: First<'static> = First {
    code: 200,
    body: "{\"kind\":\"ConfigMapList\",\"apiVersion\":\"v1\",\"metadata\":{\"resourceVersion\":\"5\"},\"items\":[{\"metadata\":{\"name\":\"a\",\"namespace\":\"b\",\"uid\":\"c\",\"creationTimestamp\":\"2026-01-01T00:00:00Z\",\"resourceVersion\":\"4\"}}]}",
};

const WRITTEN_LATER: First<'static> = First {
    code: 200,
    body: "{\"kind\":\"ConfigMapList\",\"apiVersion\":\"v1\",\"metadata\":{\"resourceVersion\":\"5\"},\"items\":[{\"metadata\":{\"name\":\"a\",\"namespace\":\"b\",\"uid\":\"c\",\"resourceVersion\":\"5\"}}]}",
};

const NONE: First<'static> = First {
    code: 200,
    body: "{\"kind\":\"ConfigMapList\",\"apiVersion\":\"v1\",\"metadata\":{\"resourceVersion\":\"5\"},\"items\":[]}",
};

/// What says nothing of it: an answer that is lost, refusals for now, a failure, and what is no list.
const LOST: First<'static> = First {
    code: 200,
    body: "",
};

const BUSY: First<'static> = First {
    code: 429,
    body: "{}",
};

const FAILED: First<'static> = First {
    code: 500,
    body: "{}",
};

const NO_LIST: First<'static> = First {
    code: 200,
    body: "[]",
};

/// What says that the revision is not known there.
const GONE: First<'static> = First {
    code: 410,
    body: "{}",
};

const FORBIDDEN: First<'static> = First {
    code: 403,
    body: "{}",
};

const TOO_NEW: First<'static> = First {
    code: 504,
    body: "{}",
};

/// Watches that expire, and that name a revision below the last one.
const EXPIRES: ScriptedWatch<'static> = ScriptedWatch {
    opened: Opened::Open,
    pieces: &[EXPIRED],
    ends: false,
};

const FALLS: ScriptedWatch<'static> = ScriptedWatch {
    opened: Opened::Open,
    pieces: &[
        "{\"type\":\"BOOKMARK\",\"object\":{\"kind\":\"ConfigMap\",\"apiVersion\":\"v1\",",
        "\"metadata\":{\"resourceVersion\":\"4\"}}}\n",
    ],
    ends: false,
};

/// What leads to a list: what is said of the first object after a watch that was cut, or what the watch itself says.
const RELISTINGS: [Relisting; 8] = [
    // another first object, or none, is another server's
    Relisting {
        watches: &[EMPTY],
        firsts: &[CREATED_ANEW],
        pauses: 2,
        told: (0, 1),
    },
    Relisting {
        watches: &[EMPTY],
        firsts: &[WRITTEN_LATER],
        pauses: 2,
        told: (0, 1),
    },
    Relisting {
        watches: &[EMPTY],
        firsts: &[NONE],
        pauses: 2,
        told: (0, 1),
    },
    // where the revision is not known there, a list is asked for
    Relisting {
        watches: &[EMPTY],
        firsts: &[GONE],
        pauses: 1,
        told: (0, 0),
    },
    Relisting {
        watches: &[EMPTY],
        firsts: &[FORBIDDEN],
        pauses: 1,
        told: (0, 0),
    },
    Relisting {
        watches: &[EMPTY],
        firsts: &[TOO_NEW],
        pauses: 1,
        told: (0, 0),
    },
    Relisting {
        watches: &[EMPTY],
        firsts: &[SAME_LATER],
        pauses: 1,
        told: (0, 0),
    },
    // a revision below the last one is another server's
    Relisting {
        watches: &[FALLS],
        firsts: &[SAME],
        pauses: 1,
        told: (0, 1),
    },
];

const SCENES: [FollowerScene; 2] = [
    // it is asked again until it is said
    FollowerScene {
        lists: &[LIST],
        firsts: &[LOST, BUSY, FAILED, NO_LIST, SAME],
        watches: &[EMPTY, UNTIL_NINE],
        refusals: 0,
        most: usize::MAX,
        asked: &[0, 5, 105, 105, 105, 105, 105, 5],
        published: &[5, 9],
        pauses: &[800, 1_600, 3_200, 6_400, 12_800],
        counts: (1, 1, 1),
        told: (1, 0),
    },
    // also after a list that was lost
    FollowerScene {
        lists: &[LIST, "", LATER],
        firsts: &[SAME],
        watches: &[EXPIRES],
        refusals: 0,
        most: usize::MAX,
        asked: &[0, 5, 0, 105, 0],
        published: &[5, 9],
        pauses: &[800, 1_600],
        counts: (2, 1, 0),
        told: (0, 0),
    },
];

/// Returns the table, and the place in it, of the first script that is not followed as it says: those that lead to a list, then the others.
fn first_unfollowed(alloc: Global) -> Option<(usize, usize)> {
    let firsts = [
        first_unlisted(alloc, &RELISTINGS),
        first_unlike(alloc, &SCENES, false),
    ];
    first_of(&firsts)
}

#[test]
fn servers_are_known_again(rt: HostRuntime) {
    assert_eq!(rt; first_unfollowed(rt.alloc()), None);
}
