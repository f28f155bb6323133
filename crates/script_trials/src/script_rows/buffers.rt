//! Buffers of a script: the rows that are worked out by hand, and the places where a line of a buffer may go wrong.

/// Lines, and how they are answered.
pub(super) const LINES: &[(&[u8], &[u8])] = &[
    // buffers_oldest
    (
        b"buffer b 2 oldest of 1,2,3,p,4\nfill b\nfill b\nfill b\nnext b\nfill b\nnext b\nnext b\nnext b\nfill b\n",
        b"ok\ntook\ntook\noverwrote\nvalue 2\npending\nvalue 3\nvalue 4\nfinished\nended\n",
    ),
    // buffers_latest
    (
        b"buffer d 1 latest of 1,2,3\nfill d\nfill d\nnext d\nnext d\nnext d\n",
        b"ok\ntook\ndropped\nvalue 1\nvalue 3\nfinished\n",
    ),
    // buffers_suspend
    (
        b"buffer s 1 suspend fail 6 1,2\nfill s\nfill s\nnext s\nnext s\nnext s\n",
        b"ok\ntook\nfull\nvalue 1\nvalue 2\nfailed 6\n",
    ),
    // buffers_refused
    (
        b"buffer z 0 suspend of 1\nbuffer z 65537 suspend of 1\n",
        b"refused 8\nrefused 1\n",
    ),
    // conflating_buffer
    (
        b"buffer b 1 oldest of 1,2,3\nfill b\nfill b\nfill b\nfill b\nnext b\nnext b\nfill b\n",
        b"ok\ntook\noverwrote\noverwrote\nended\nvalue 3\nfinished\nended\n",
    ),
    // A refused buffer binds no name, and its largest capacity is 65,536.
    (
        b"buffer b 0 oldest of 1\nfill b\nbuffer b 65536 oldest of\nfill b\nnext b\nnext b\n",
        b"refused 8\nline 2: bad command\nok\nended\nfinished\nfinished\n",
    ),
    // Every condition of a bad line comes before every refusal.
    (
        b"buffer b 1 suspend of 1\nbuffer b 0 suspend of 1\nbuffer c 0 suspend of x\nbuffer c 0 drop of 1\nbuffer c 0 suspend\nbuffer c 0 suspend of 1 2\n",
        b"ok\nline 2: bad command\nline 3: bad command\nline 4: bad command\nline 5: bad command\nline 6: bad command\n",
    ),
    // A name stands for one kind of thing.
    (
        b"shared f 0 1 suspend\nbuffer b 1 suspend of 1\nfill f\nfill x\nfill b b\ncancel b\nsub b a\ntry b 1\npoll b\nnext f\nbuffer f 1 suspend of 1\n",
        b"ok\nok\nline 3: bad command\nline 4: bad command\nline 5: bad command\nline 6: bad command\nline 7: bad command\nline 8: bad command\nline 9: bad command\nline 10: bad command\nline 11: bad command\n",
    ),
    // Subscriptions and buffers are asked by one command.
    (
        b"shared f 0 1 suspend\nsub f a\nbuffer b 1 suspend of p,7\ntry f 1\nnext a\nnext b\nnext b\nnext b\nnext a\n",
        b"ok\nok\nok\naccepted\nvalue 1\npending\nvalue 7\nfinished\npending\n",
    ),
    // A source of as many numbers as there are takes no memory for them.
    (
        b"buffer r 2 latest range 0 18446744073709551615\nfill r\nfill r\nfill r\nnext r\nnext r\nnext r\n",
        b"ok\ntook\ntook\ndropped\nvalue 0\nvalue 1\nvalue 3\n",
    ),
];
