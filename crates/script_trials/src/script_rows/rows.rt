//! Scripts with the answers that they are to give.

/// A script and its answers, both with ` ; ` between lines.
pub struct Row {
    pub name: &'static str,
    pub script: &'static str,
    pub answers: &'static str,
}

/// A sharing that stops and resets while nobody subscribes.
pub const SHARE_WHILE_SUBSCRIBED: Row = Row {
    name: "share_while_subscribed",
    script: "share f 1 0 suspend while 100 50 of 1,p,2 ; tick f 0 ; sub f a ; tick f 10 ; next a ; tick f 20 ; next a ; cancel a ; tick f 1000 ; tick f 1099 ; tick f 1100 ; tick f 1149 ; cache f ; tick f 1150 ; cache f ; sub f b ; tick f 1150 ; next b",
    answers: "ok ; off ; ok ; on ; value 1 ; on ; value 2 ; ok ; on ; on ; off ; off ; [2] ; off ; [] ; ok ; on ; value 1",
};

/// A state whose collector misses what was overwritten.
pub const STATE_CONFLATES: Row = Row {
    name: "state_conflates",
    script: "state s 0 ; collect s c ; next c ; set s 1 ; set s 1 ; set s 2 ; next c ; set s 3 ; set s 2 ; next c ; cas s 2 2 ; cas s 9 4 ; cas s 2 5 ; value s",
    answers: "ok ; ok ; value 0 ; ok ; ok ; ok ; value 2 ; ok ; ok ; pending ; true ; false ; true ; value 5",
};

/// The script of the examples: a flow with two places, which are filled and freed.
pub const FIRST_PATH: Row = Row {
    name: "first_path",
    script: "shared f 0 2 suspend ; sub f a ; try f 1 ; try f 2 ; try f 3 ; next a ; try f 3 ; next a ; next a ; next a ; cancel a ; next a",
    answers: "ok ; ok ; accepted ; accepted ; full ; value 1 ; accepted ; value 2 ; value 3 ; pending ; ok ; closed",
};

pub const ROWS: &[Row] = &[
    Row {
        name: "replay_gives_latest",
        script: "shared f 2 1 suspend ; try f 1 ; try f 2 ; try f 3 ; sub f a ; next a ; next a ; next a",
        answers: "ok ; accepted ; accepted ; accepted ; ok ; value 2 ; value 3 ; pending",
    },
    Row {
        name: "waiting_in_order",
        script: "shared f 0 1 suspend ; sub f a ; emit f e1 1 ; emit f e2 2 ; emit f e3 3 ; next a ; poll e3 ; poll e2 ; next a ; poll e3 ; next a",
        answers: "ok ; ok ; accepted ; waiting ; waiting ; value 1 ; waiting ; done ; value 2 ; done ; value 3",
    },
    Row {
        name: "hand_over",
        script: "shared f 0 0 suspend ; try f 1 ; sub f a ; try f 2 ; emit f e 3 ; next a ; poll e ; next a",
        answers: "ok ; accepted ; ok ; full ; waiting ; value 3 ; done ; pending",
    },
    Row {
        name: "drop_oldest_per_subscriber",
        script: "shared f 0 2 oldest ; sub f a ; sub f b ; try f 1 ; try f 2 ; next b ; next b ; try f 3 ; next a ; next a ; next b",
        answers: "ok ; ok ; ok ; accepted ; accepted ; value 1 ; value 2 ; accepted ; value 2 ; value 3 ; value 3",
    },
    Row {
        name: "drop_latest_keeps_cache",
        script: "shared f 1 0 latest ; sub f a ; try f 1 ; try f 2 ; cache f ; next a ; try f 3 ; cache f ; next a",
        answers: "ok ; ok ; accepted ; dropped ; [1] ; value 1 ; accepted ; [3] ; value 3",
    },
    Row {
        name: "cancel_frees_waiting",
        script: "shared f 1 0 suspend ; sub f a ; emit f e1 1 ; emit f e2 2 ; emit f e3 3 ; cancel a ; poll e2 ; poll e3 ; poll e1 ; cache f ; next a ; cancel a ; count f",
        answers: "ok ; ok ; accepted ; waiting ; waiting ; ok ; done ; done ; gone ; [3] ; closed ; closed ; 0",
    },
    Row {
        name: "reset_keeps_pending",
        script: "shared f 2 0 suspend ; try f 1 ; try f 2 ; sub f a ; reset f ; sub f b ; next a ; next a ; next b ; cache f ; count f",
        answers: "ok ; accepted ; accepted ; ok ; ok ; ok ; value 1 ; value 2 ; pending ; [] ; 2",
    },
    Row {
        name: "withdraw",
        script: "shared f 0 1 suspend ; sub f a ; emit f e1 1 ; emit f e2 2 ; emit f e3 3 ; withdraw e2 ; next a ; next a ; poll e2 ; withdraw e3 ; poll e3",
        answers: "ok ; ok ; accepted ; waiting ; waiting ; removed ; value 1 ; value 3 ; gone ; left ; gone",
    },
    Row {
        name: "refusals_at_making",
        script: "shared f 0 0 oldest ; shared f 65536 1 suspend ; shared f 65537 0 latest ; shared f 65536 0 latest",
        answers: "refused 2 ; refused 1 ; refused 1 ; ok",
    },
    Row {
        name: "late_subscriber_at_hand_over",
        script: "shared f 0 0 suspend ; sub f a ; emit f e 5 ; sub f b ; next b ; poll e ; cancel a ; poll e",
        answers: "ok ; ok ; waiting ; ok ; pending ; waiting ; ok ; done",
    },
    FIRST_PATH,
    Row {
        name: "places_full",
        script: "shared f 0 0 suspend ; sub f a1 ; sub f a2 ; sub f a3 ; sub f a4 ; sub f a5 ; sub f a6 ; sub f a7 ; sub f a8 ; sub f a9 ; cancel a1 ; sub f a9",
        answers: "ok ; ok ; ok ; ok ; ok ; ok ; ok ; ok ; ok ; refused 5 ; ok ; ok",
    },
    Row {
        name: "places_and_tickets_full",
        script: "shared f 0 0 suspend ; sub f a1 ; sub f a2 ; sub f a3 ; sub f a4 ; sub f a5 ; sub f a6 ; sub f a7 ; sub f a8 ; sub f a9 ; cancel a1 ; sub f a9 ; shared g 0 0 suspend ; sub g a ; emit g e1 1 ; emit g e2 2 ; emit g e3 3 ; emit g e4 4 ; emit g e5 5 ; emit g e6 6 ; emit g e7 7 ; emit g e8 8 ; emit g e9 9 ; next a ; poll e1 ; emit g e9 9",
        answers: "ok ; ok ; ok ; ok ; ok ; ok ; ok ; ok ; ok ; refused 5 ; ok ; ok ; ok ; ok ; waiting ; waiting ; waiting ; waiting ; waiting ; waiting ; waiting ; waiting ; refused 6 ; value 1 ; done ; waiting",
    },
    Row {
        name: "place_used_again",
        script: "shared f 1 0 suspend ; sub f a ; try f 1 ; next a ; try f 2 ; cancel a ; try f 3 ; sub f b ; next b ; next b",
        answers: "ok ; ok ; accepted ; value 1 ; accepted ; ok ; accepted ; ok ; value 3 ; pending",
    },
    Row {
        name: "drop_latest_emit",
        script: "shared f 0 1 latest ; sub f a ; emit f e1 1 ; emit f e2 2 ; poll e2 ; next a ; next a",
        answers: "ok ; ok ; accepted ; dropped ; gone ; value 1 ; pending",
    },
    Row {
        name: "reset_under_drop_oldest",
        script: "shared f 1 1 oldest ; sub f a ; try f 1 ; try f 2 ; reset f ; try f 3 ; cache f ; next a ; next a",
        answers: "ok ; ok ; accepted ; accepted ; ok ; accepted ; [3] ; value 2 ; value 3",
    },
    Row {
        name: "ring_over_capacity",
        script: "shared f 1 2 oldest ; sub f a ; try f 1 ; try f 2 ; try f 3 ; try f 4 ; try f 5 ; cache f ; sub f b ; next a ; next a ; next a ; next a ; next b",
        answers: "ok ; ok ; accepted ; accepted ; accepted ; accepted ; accepted ; [5] ; ok ; value 3 ; value 4 ; value 5 ; pending ; value 5",
    },
    Row {
        name: "numbers_and_names",
        script: "shared f 0 1 suspend ; try f 18446744073709551616 ; try f 000000000000000000001 ; try f 00000000000000000001 ; sub f A ; next f",
        answers: "ok ; line 2: bad command ; line 3: bad command ; accepted ; line 5: bad command ; line 6: bad command",
    },
    Row {
        name: "prelude_first",
        script: "shared f 1 1 suspend ; try f 1 ; sub f a with 8,9 ; try f 2 ; try f 3 ; next a ; try f 3 ; next a ; next a ; next a ; next a",
        answers: "ok ; accepted ; ok ; accepted ; full ; value 8 ; full ; value 9 ; value 1 ; value 2 ; pending",
    },
    Row {
        name: "prelude_at_hand_over",
        script: "shared f 0 0 suspend ; sub f a with 5 ; emit f e 1 ; poll e ; next a ; poll e ; next a ; poll e",
        answers: "ok ; ok ; waiting ; waiting ; value 5 ; waiting ; value 1 ; done",
    },
    Row {
        name: "prelude_survives_drop",
        script: "shared f 0 1 oldest ; sub f a with 5 ; try f 1 ; try f 2 ; next a ; next a ; next a",
        answers: "ok ; ok ; accepted ; accepted ; value 5 ; value 2 ; pending",
    },
    Row {
        name: "prelude_limit",
        script: "shared f 0 0 suspend ; sub f a with 1,2,3,4,5,6,7,8,9,10,11,12,13,14,15,16,17 ; sub f a with 1,2,3,4,5,6,7,8,9,10,11,12,13,14,15,16 ; next a ; cancel a ; next a",
        answers: "ok ; refused 10 ; ok ; value 1 ; ok ; closed",
    },
    Row {
        name: "prelude_before_places",
        script: "shared f 0 0 suspend ; sub f a1 ; sub f a2 ; sub f a3 ; sub f a4 ; sub f a5 ; sub f a6 ; sub f a7 ; sub f a8 ; sub f a9 with 1,2,3,4,5,6,7,8,9,10,11,12,13,14,15,16,17 ; sub f a9 with 1",
        answers: "ok ; ok ; ok ; ok ; ok ; ok ; ok ; ok ; ok ; refused 10 ; refused 5",
    },
    Row {
        name: "prelude_of_a_sharing",
        script: "share f 0 1 suspend eager of 1 ; sub f a with 9 ; tick f 0 ; next a ; next a ; sub f b with 1,2,3,4,5,6,7,8,9,10,11,12,13,14,15,16,17",
        answers: "ok ; ok ; on ; value 9 ; value 1 ; refused 10",
    },
    STATE_CONFLATES,
    Row {
        name: "seats_full",
        script: "state s 0 ; collect s c1 ; collect s c2 ; collect s c3 ; collect s c4 ; collect s c5 ; collect s c6 ; collect s c7 ; collect s c8 ; collect s c9 ; count s ; cancel c1 ; collect s c9 ; next c9 ; next c1 ; cancel c1",
        answers: "ok ; ok ; ok ; ok ; ok ; ok ; ok ; ok ; ok ; refused 5 ; 8 ; ok ; ok ; value 0 ; closed ; closed",
    },
    Row {
        name: "collectors_of_two_states",
        script: "state s 1 ; state t 2 ; collect t c ; collect s d ; next c ; next d ; set t 3 ; next d ; next c ; cancel d ; count s ; count t ; value s ; value t",
        answers: "ok ; ok ; ok ; ok ; value 2 ; value 1 ; ok ; pending ; value 3 ; ok ; 0 ; 1 ; value 1 ; value 3",
    },
    SHARE_WHILE_SUBSCRIBED,
    Row {
        name: "stated_and_shared",
        script: "stated s 7 while 0 0 of 1 ; value s ; collect s c ; next c ; tick s 5 ; value s ; cancel c ; tick s 6 ; value s ; share g 1 0 suspend eager fail 7 1 ; tick g 0 ; cache g ; tick g 9 ; share h 0 1 suspend lazy of 1,2,3 ; sub h a ; tick h 0 ; next a ; next a ; next a ; tick h 1 ; next a",
        answers: "ok ; value 7 ; ok ; value 7 ; on ; value 1 ; ok ; off ; value 7 ; ok ; failed 7 ; [1] ; failed 7 ; ok ; ok ; on ; value 1 ; value 2 ; pending ; on ; value 3",
    },
    Row {
        name: "sharing_keeps_what_waits",
        script: "share h 0 1 suspend lazy of 1,2,3 ; sub h a ; tick h 0 ; tick h 1 ; next a ; next a ; tick h 2 ; next a",
        answers: "ok ; ok ; on ; on ; value 1 ; value 2 ; on ; value 3",
    },
    Row {
        name: "share_never_expires",
        script: "share f 1 0 suspend while 0 never of 1 ; sub f a ; tick f 0 ; cancel a ; tick f 5 ; tick f 3 ; cache f ; sub f b ; tick f 4 ; next b ; next b",
        answers: "ok ; ok ; on ; ok ; off ; off ; [1] ; ok ; on ; value 1 ; value 1",
    },
    Row {
        name: "share_takes_32_events",
        script: "share g 1 0 suspend eager range 0 33 ; tick g 0 ; cache g ; tick g 0 ; cache g",
        answers: "ok ; on ; [31] ; on ; [32]",
    },
    Row {
        name: "plan_of_commands",
        script: "share f 1 0 suspend plan 10:1:8:start,20:0:0:stop,30:0:8:clear,30:0:8:start of 1,p,2 ; sub f a ; tick f 5 ; tick f 10 ; next a ; tick f 25 ; next a ; cancel a ; tick f 26 ; tick f 29 ; cache f ; tick f 30 ; cache f ; tick f 30 ; cache f",
        answers: "ok ; ok ; off ; on ; value 1 ; on ; value 2 ; ok ; off ; off ; [2] ; off ; [] ; on ; [1]",
    },
    Row {
        name: "plan_repeats",
        script: "share g 2 0 suspend plan 0:0:8:start,0:0:8:start of 1 ; tick g 0 ; tick g 0 ; cache g",
        answers: "ok ; on ; on ; [1]",
    },
    Row {
        name: "plan_for_state",
        script: "stated s 7 plan 0:0:9:start,0:0:9:clear of 1 ; tick s 0 ; value s ; tick s 0 ; value s ; share h 0 0 oldest plan 0:2:1:start of 1 ; share h 0 0 oldest plan 0:1:2:start of 1",
        answers: "ok ; on ; value 1 ; off ; value 7 ; refused 11 ; refused 2",
    },
    Row {
        name: "plan_before_places",
        script: "share h 65537 0 suspend plan 0:2:1:start of 1 ; share h 65537 0 suspend plan 0:1:2:start of 1",
        answers: "refused 11 ; refused 1",
    },
];
