//! What follows for whoever speaks over a connection.
ghost use Rattle.spec_http.specs.Laws.{OneThingIsAsked, AskedStaysAsked, HeadsAsk, HalfAHeadAsksNothing, HalfABodyAsksNothing, LargeHeadsAreRefused, ManyFieldsAreRefused, IllFormedHeadsAreRefused, RequestsAreRead, ProperRequestsAreRead};

/// The bytes of a connection ask one thing, but where two are allowed: of bytes that nothing makes a head, if a limit is passed
/// too, or if they end in a target.
pub fn one_thing_is_asked()
    ensures { OneThingIsAsked }
{}

/// What the bytes of a connection ask stays asked, whatever follows them: who reads a connection as its bytes come may do what is
/// asked, or refuse it, as soon as anything is asked.
pub fn asked_stays_asked()
    ensures { AskedStaysAsked }
{}

/// A head within the limits asks what its checks say, with what follows it, and nothing else.
pub fn heads_ask()
    ensures { HeadsAsk }
{}

/// A peer that ends before its head does, within the limits, has asked nothing and gets no reply.
pub fn half_a_head_asks_nothing()
    ensures { HalfAHeadAsksNothing }
{}

/// A peer that ends before its body does has asked nothing and gets no reply.
pub fn half_a_body_asks_nothing()
    ensures { HalfABodyAsksNothing }
{}

/// A head that is longer than 16,384 bytes, or has more than 64 fields, is too large, whatever follows.
pub fn large_heads_are_refused()
    ensures { LargeHeadsAreRefused }
{}

/// A peer that ends after its 65th field is told that its head is too large.
pub fn many_fields_are_refused()
    ensures { ManyFieldsAreRefused }
{}

/// Bytes that nothing can make a head are refused as such, but where they pass a limit too, or end in a target.
pub fn ill_formed_heads_are_refused()
    ensures { IllFormedHeadsAreRefused }
{}

/// A request whose head passes its checks is read as any request is of its method, its target and its body.
pub fn requests_are_read()
    ensures { RequestsAreRead }
{}

/// Where a head is as HTTP itself wants it, what the request asks, or why it is refused, is what any request of its method, its
/// target and its body asks: the same refusals, in the same order.
pub fn proper_requests_are_read()
    ensures { ProperRequestsAreRead }
{}
