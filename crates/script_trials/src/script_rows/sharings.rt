//! Sharings of a script: the places where a line may go wrong, and what no worked row shows.

/// Lines, and how they are answered.
pub(super) const LINES: &[(&[u8], &[u8])] = &[
    // What shares a source is a kind of its own.
    (
        b"share f 1 0 suspend eager of 1\ntry f 1\nemit f e 1\nreset f\nset f 1\ncas f 0 1\nvalue f\ncollect f c\nfill f\nnext f\ncancel f\nshare f 1 0 suspend eager of 1\nshared f 1 0 suspend\ncache f\ncount f\n",
        b"ok\nline 2: bad command\nline 3: bad command\nline 4: bad command\nline 5: bad command\nline 6: bad command\nline 7: bad command\nline 8: bad command\nline 9: bad command\nline 10: bad command\nline 11: bad command\nline 12: bad command\nline 13: bad command\n[]\n0\n",
    ),
    // A state that a source sets is set by nothing else.
    (
        b"stated s 7 eager of 1\nset s 1\ncas s 7 1\nsub s a\ncache s\nreset s\nnext s\ncancel s\ntry s 1\nstate s 1\nstated s 1 eager of 1\nvalue s\ncount s\ntick s 0\nvalue s\n",
        b"ok\nline 2: bad command\nline 3: bad command\nline 4: bad command\nline 5: bad command\nline 6: bad command\nline 7: bad command\nline 8: bad command\nline 9: bad command\nline 10: bad command\nline 11: bad command\nvalue 7\n0\non\nvalue 1\n",
    ),
    // Only what has a source is polled.
    (
        b"shared f 0 1 suspend\nsub f a\nstate s 1\ncollect s c\nbuffer b 1 suspend of 1\nemit f e 1\ntick f 0\ntick a 0\ntick s 0\ntick c 0\ntick b 0\ntick e 0\ntick x 0\nshare g 0 1 suspend eager of\nsub g d\ntick d 0\ntick g\ntick g x\ntick g 0 0\ntick g 0\n",
        b"ok\nok\nok\nok\nok\naccepted\nline 7: bad command\nline 8: bad command\nline 9: bad command\nline 10: bad command\nline 11: bad command\nline 12: bad command\nline 13: bad command\nok\nok\nline 16: bad command\nline 17: bad command\nline 18: bad command\nline 19: bad command\non\n",
    ),
    // Each word of a start, and of the source after it, is one that it may be.
    (
        b"share f 0 1 suspend of 1\nshare f 0 1 suspend soon of 1\nshare f 0 1 suspend while of 1\nshare f 0 1 suspend while 1 of 1\nshare f 0 1 suspend while never 1 of 1\nshare f 0 1 suspend while 1 ever of 1\nshare f 0 1 suspend eager\nshare f 0 1 suspend eager of x\nshare f 0 1 suspend eager of 1 2\nshare f 0 1 suspend while 1 18446744073709551616 of 1\nstated s lazy of 1\nstated s 1 of 1\nstated s 1 lazy\nshare f 0 1 drop eager of 1\nshare f 0 0 oldest eager of x\nshare f 0 1 suspend while 18446744073709551615 never range 0 1\nstated s 1 lazy fail 1\n",
        b"line 1: bad command\nline 2: bad command\nline 3: bad command\nline 4: bad command\nline 5: bad command\nline 6: bad command\nline 7: bad command\nline 8: bad command\nline 9: bad command\nline 10: bad command\nline 11: bad command\nline 12: bad command\nline 13: bad command\nline 14: bad command\nline 15: bad command\nok\nok\n",
    ),
    // Each part of a plan is an entry, or the line is bad; a plan that is none is refused before anything else.
    (
        b"share f 0 1 suspend plan of 1\nshare f 0 1 suspend plan 0:0:8:start\nshare f 0 1 suspend plan 0:0:8 of 1\nshare f 0 1 suspend plan 0:0:8:begin of 1\nshare f 0 1 suspend plan 0:0:8:start:stop of 1\nshare f 0 1 suspend plan 0:0:8:start, of 1\nshare f 0 1 suspend plan 18446744073709551616:0:8:start of 1\nshare f 0 1 suspend plan 0:4294967296:8:start of 1\nshare f 0 1 suspend plan 0:0:4294967296:start of 1\nstated s 1 plan 0:2:1:stop of x\nshare f 65536 1 suspend plan 0:2:1:stop of 1\nstated s 1 plan 0:2:1:stop of 1\nstated s 1 plan 0:0:0:stop,0:0:0:stop,0:0:0:stop,0:0:0:stop,0:0:0:stop,0:0:0:stop,0:0:0:stop,0:0:0:stop,0:0:0:stop,0:0:0:stop,0:0:0:stop,0:0:0:stop,0:0:0:stop,0:0:0:stop,0:0:0:stop,0:0:0:stop,0:0:0:stop,0:0:0:stop,0:0:0:stop,0:0:0:stop,0:0:0:stop,0:0:0:stop,0:0:0:stop,0:0:0:stop,0:0:0:stop,0:0:0:stop,0:0:0:stop,0:0:0:stop,0:0:0:stop,0:0:0:stop,0:0:0:stop,0:0:0:stop,0:0:0:stop of 1\nstated s 1 plan 0:0:0:stop,0:0:0:stop,0:0:0:stop,0:0:0:stop,0:0:0:stop,0:0:0:stop,0:0:0:stop,0:0:0:stop,0:0:0:stop,0:0:0:stop,0:0:0:stop,0:0:0:stop,0:0:0:stop,0:0:0:stop,0:0:0:stop,0:0:0:stop,0:0:0:stop,0:0:0:stop,0:0:0:stop,0:0:0:stop,0:0:0:stop,0:0:0:stop,0:0:0:stop,0:0:0:stop,0:0:0:stop,0:0:0:stop,0:0:0:stop,0:0:0:stop,0:0:0:stop,0:0:0:stop,0:0:0:stop,0:0:0:stop of 1\nshare f 0 1 suspend plan 18446744073709551615:0:4294967295:start of 1\n",
        b"line 1: bad command\nline 2: bad command\nline 3: bad command\nline 4: bad command\nline 5: bad command\nline 6: bad command\nline 7: bad command\nline 8: bad command\nline 9: bad command\nline 10: bad command\nrefused 11\nrefused 11\nrefused 11\nok\nok\n",
    ),
    // Refusals at making come in the order of a shared flow's, and bind no name.
    (
        b"share f 65536 1 suspend eager of 1\nshare f 65537 0 latest lazy of 1\nshare f 0 0 oldest while 0 never of 1\nsub f a\ntick f 0\nshare f 65536 0 latest eager of 1\ntick f 0\ncache f\n",
        b"refused 1\nrefused 1\nrefused 2\nline 4: bad command\nline 5: bad command\nok\non\n[1]\n",
    ),
    // A ninth subscription and a ninth collector are refused; a place that is given back is taken again.
    (
        b"share f 1 0 suspend eager of 5\nsub f a1\nsub f a2\nsub f a3\nsub f a4\nsub f a5\nsub f a6\nsub f a7\nsub f a8\nsub f a9\ncount f\nnext a9\ncancel a1\ncancel a1\nnext a1\ncount f\nsub f a9\ntick f 0\nnext a9\nnext a9\nstated s 3 lazy of 4\ncollect s c1\ncollect s c2\ncollect s c3\ncollect s c4\ncollect s c5\ncollect s c6\ncollect s c7\ncollect s c8\ncollect s c9\ncount s\ncancel c1\ncollect s c9\nnext c9\nnext c1\ntick s 1\nnext c9\nnext c9\nvalue s\n",
        b"ok\nok\nok\nok\nok\nok\nok\nok\nok\nrefused 5\n8\nline 12: bad command\nok\nclosed\nclosed\n7\nok\non\nvalue 5\npending\nok\nok\nok\nok\nok\nok\nok\nok\nok\nrefused 5\n8\nok\nok\nvalue 3\nclosed\non\nvalue 4\npending\nvalue 4\n",
    ),
    // A value that waits is pending until there is room, and a poll goes on after it.
    (
        b"share f 0 0 suspend lazy of 1,2\nsub f a\ntick f 0\nnext a\nnext a\ntick f 0\nnext a\ncancel a\ntick f 0\ncount f\n",
        b"ok\nok\non\nvalue 1\npending\non\nvalue 2\nok\non\n0\n",
    ),
    // A failure ends sharing for good at the poll that meets it, the end being one of 32 events.
    (
        b"share f 40 0 suspend eager fail 9 1,1,1,1,1,1,1,1,1,1,1,1,1,1,1,1,1,1,1,1,1,1,1,1,1,1,1,1,1,1,1\ntick f 0\ntick f 1\nshare g 1 0 suspend eager fail 9 1,1,1,1,1,1,1,1,1,1,1,1,1,1,1,1,1,1,1,1,1,1,1,1,1,1,1,1,1,1,1,1\ntick g 0\ntick g 0\nstated s 0 eager fail 8 2,2,2,2,2,2,2,2,2,2,2,2,2,2,2,2,2,2,2,2,2,2,2,2,2,2,2,2,2,2,2,2\ntick s 0\nvalue s\ntick s 0\ntick s 9\nvalue s\n",
        b"ok\nfailed 9\nfailed 9\nok\non\nfailed 9\nok\non\nvalue 2\nfailed 8\nfailed 8\nvalue 2\n",
    ),
    // A source begins anew at each start, and moments don't go back.
    (
        b"stated s 0 while 10 5 of 1,p,2\ntick s 100\ncollect s c\ntick s 50\nnext c\ntick s 60\nnext c\ncancel c\ntick s 0\ntick s 109\ntick s 110\nvalue s\ntick s 114\nvalue s\ntick s 115\nvalue s\ncollect s d\ntick s 115\nvalue s\nnext d\n",
        b"ok\noff\nok\non\nvalue 1\non\nvalue 2\nok\non\non\noff\nvalue 2\noff\nvalue 2\noff\nvalue 0\nok\non\nvalue 1\nvalue 1\n",
    ),
];
