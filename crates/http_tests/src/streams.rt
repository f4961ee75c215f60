//! What a follower makes of streams of initial events, of which no contract speaks.
use crate::scenes::{
    FollowerScene, LATER, LIST, SAME, UNTIL_NINE, first_of, first_unlike, is_followed,
};
use api_client::Opened;
use scripted_api::{STREAM, ScriptedWatch};
use std::alloc::Global;

/// An object as an initial event, and the bookmarks that close the initial events at the revisions 5 and 9.
const A: &str =
    "{\"type\":\"ADDED\",\"object\":{\"kind\":\"ConfigMap\",\"apiVersion\":\"v1\",\"metadata\":{\"name\":\"a\",\"namespace\":\"b\",\"uid\":\"c\",\"resourceVersion\":\"4\"}}}\n";

const CLOSED: &str =
    "{\"type\":\"BOOKMARK\",\"object\":{\"kind\":\"ConfigMap\",\"apiVersion\":\"v1\",\"metadata\":{\"resourceVersion\":\"5\",\"annotations\":{\"k8s.io/initial-events-end\":\"true\"}}}}\n";

const CLOSED_LATER: &str =
    "{\"type\":\"BOOKMARK\",\"object\":{\"kind\":\"ConfigMap\",\"apiVersion\":\"v1\",\"metadata\":{\"resourceVersion\":\"9\",\"annotations\":{\"k8s.io/initial-events-end\":\"true\"}}}}\n";

/// The object, and then what is no frame, in one piece.
const A_AND_NO_FRAME: &str =
    "{\"type\":\"ADDED\",\"object\":{\"kind\":\"ConfigMap\",\"apiVersion\":\"v1\",\"metadata\":{\"name\":\"a\",\"namespace\":\"b\",\"uid\":\"c\",\"resourceVersion\":\"4\"}}}\nno frame\n";

/// Streams that are cut: once their initial events are closed, before that, and after what is no frame.
const UNTIL_FIVE: ScriptedWatch<'static> = ScriptedWatch {
    opened: Opened::Open,
    pieces: &[A, CLOSED],
    ends: false,
};

const UNTIL_NINE_WITH_A: ScriptedWatch<'static> = ScriptedWatch {
    opened: Opened::Open,
    pieces: &[A, CLOSED_LATER],
    ends: false,
};

const EMPTY_UNTIL_NINE: ScriptedWatch<'static> = ScriptedWatch {
    opened: Opened::Open,
    pieces: &[CLOSED_LATER],
    ends: false,
};

const UNCLOSED: ScriptedWatch<'static> = ScriptedWatch {
    opened: Opened::Open,
    pieces: &[A],
    ends: false,
};

const UNREADABLE: ScriptedWatch<'static> = ScriptedWatch {
    opened: Opened::Open,
    pieces: &[A_AND_NO_FRAME],
    ends: false,
};

/// A stream that is refused as where none is known, a stream or a watch that is forbidden, one that is answered by no watch, and one that has expired.
const UNPROCESSABLE: ScriptedWatch<'static> = ScriptedWatch {
    opened: Opened::Refused {
        code: 422,
        retry_after: None,
    },
    pieces: &[],
    ends: false,
};

const FORBIDDEN: ScriptedWatch<'static> = ScriptedWatch {
    opened: Opened::Refused {
        code: 403,
        retry_after: None,
    },
    pieces: &[],
    ends: false,
};

const NO_WATCH: ScriptedWatch<'static> = ScriptedWatch {
    opened: Opened::Refused {
        code: 200,
        retry_after: None,
    },
    pieces: &[],
    ends: false,
};

const GONE: ScriptedWatch<'static> = ScriptedWatch {
    opened: Opened::Expired,
    pieces: &[],
    ends: false,
};

/// The pause at which the clock stops a follower that goes on asking for what is refused.
const MOST_PAUSES: usize = 3;

const SCENES: [FollowerScene; 6] = [
    // a watch goes on where the stream was cut
    FollowerScene {
        lists: &[],
        firsts: &[SAME],
        watches: &[UNTIL_FIVE, UNTIL_NINE],
        refusals: 0,
        most: usize::MAX,
        asked: &[STREAM, 105, 5],
        published: &[5, 9],
        pauses: &[],
        counts: (1, 1, 1),
        told: (0, 0),
    },
    // after a list in the place of a stream that is refused, a stream is tried again after the next expiry
    FollowerScene {
        lists: &[LIST],
        firsts: &[],
        watches: &[UNPROCESSABLE, GONE, EMPTY_UNTIL_NINE],
        refusals: 0,
        most: usize::MAX,
        asked: &[STREAM, 0, 5, STREAM],
        published: &[5, 9],
        pauses: &[800],
        counts: (2, 1, 0),
        told: (0, 0),
    },
    // where watches are refused too, lists follow one another, each after a pause
    FollowerScene {
        lists: &[LIST, LATER],
        firsts: &[],
        watches: &[FORBIDDEN, FORBIDDEN, FORBIDDEN],
        refusals: 0,
        most: MOST_PAUSES,
        asked: &[STREAM, 0, 5, STREAM, 0],
        published: &[5, 9],
        pauses: &[800],
        counts: (2, 1, 0),
        told: (0, 0),
    },
    // what answers with no watch may be another server: it is asked for the first object before the list
    FollowerScene {
        lists: &[LATER],
        firsts: &[SAME, SAME],
        watches: &[UNTIL_FIVE, GONE, NO_WATCH],
        refusals: 0,
        most: MOST_PAUSES,
        asked: &[STREAM, 105, 5, STREAM, 105, 0],
        published: &[5, 9],
        pauses: &[800],
        counts: (2, 1, 0),
        told: (0, 0),
    },
    // a stream that is cut before its initial events are closed has given nothing
    FollowerScene {
        lists: &[],
        firsts: &[],
        watches: &[UNCLOSED, UNTIL_NINE_WITH_A],
        refusals: 0,
        most: usize::MAX,
        asked: &[STREAM, STREAM],
        published: &[9],
        pauses: &[800],
        counts: (1, 1, 1),
        told: (0, 0),
    },
    // initial events may name any revision, so that they show no other server
    FollowerScene {
        lists: &[],
        firsts: &[SAME, SAME],
        watches: &[UNTIL_FIVE, GONE, UNREADABLE, EMPTY_UNTIL_NINE],
        refusals: 0,
        most: usize::MAX,
        asked: &[STREAM, 105, 5, STREAM, 105, STREAM],
        published: &[5, 9],
        pauses: &[800, 1_600],
        counts: (2, 1, 0),
        told: (1, 0),
    },
];

/// Status codes by which a stream may be refused for ever, and those by which it is refused for now.
const LASTING: [u16; 8] = [200, 302, 400, 403, 404, 405, 422, 501];

const FOR_NOW: [u16; 5] = [429, 500, 502, 503, 504];

/// Returns a stream that is refused with a status code.
fn refused(code: u16) -> ScriptedWatch<'static> {
    ScriptedWatch {
        opened: Opened::Refused {
            code,
            retry_after: None,
        },
        pieces: &[],
        ends: false,
    }
}

/// Returns whether a list follows at once a stream that is refused with a status code, and then a watch.
fn is_listed(alloc: Global, code: u16) -> bool {
    let watches = [refused(code), UNTIL_NINE];
    let scene = FollowerScene {
        lists: &[LIST],
        firsts: &[],
        watches: &watches,
        refusals: 0,
        most: MOST_PAUSES,
        asked: &[STREAM, 0, 5],
        published: &[5, 9],
        pauses: &[],
        counts: (1, 1, 1),
        told: (0, 0),
    };
    is_followed(alloc, &scene, true)
}

/// Returns whether a stream that is refused with a status code is asked for again after a pause.
fn is_opened_again(alloc: Global, code: u16) -> bool {
    let watches = [refused(code), UNTIL_NINE_WITH_A];
    let scene = FollowerScene {
        lists: &[],
        firsts: &[],
        watches: &watches,
        refusals: 0,
        most: MOST_PAUSES,
        asked: &[STREAM, STREAM],
        published: &[9],
        pauses: &[800],
        counts: (1, 1, 1),
        told: (0, 0),
    };
    is_followed(alloc, &scene, true)
}

/// Returns the first lasting refusal that no list follows so.
fn first_unlisted(alloc: Global) -> Option<usize> {
    for (place, &code) in LASTING.iter().enumerate() {
        if !is_listed(alloc, code) {
            return Some(place);
        }
    }
    None
}

/// Returns the first refusal for now after which a stream is not asked for so.
fn first_given_up(alloc: Global) -> Option<usize> {
    for (place, &code) in FOR_NOW.iter().enumerate() {
        if !is_opened_again(alloc, code) {
            return Some(place);
        }
    }
    None
}

/// Returns the table, and the place in it, of the first script that is not followed as it says: the scenes, lasting refusals, and those for now.
fn first_unfollowed(alloc: Global) -> Option<(usize, usize)> {
    let firsts = [
        first_unlike(alloc, &SCENES, true),
        first_unlisted(alloc),
        first_given_up(alloc),
    ];
    first_of(&firsts)
}

#[test]
fn streams_are_followed(rt: HostRuntime) {
    assert_eq!(rt; first_unfollowed(rt.alloc()), None);
}
