// Runs that end without a rate: lost, unanswered, or refused by the sender. Of these, the earlier wins.

pub const CASES: &[&str] = &[
    // Lost exactly when the starting IP TTL is at most the number of routers, silent ones counted.
    "IP TTL 1, one router: 01 05 01 80 00 00 00 00 02 0f 00 00 00 00 04 0f\n\
     IP TTL 2, one router: 01 05 02 80 00 00 00 00 02 0f 00 00 00 00 04 0f\n\
     IP TTL 1, one silent router: 01 05 01 80 00 00 00 00 03 04 0f\n\
     IP TTL 2, one silent router: 01 05 02 80 00 00 00 00 03 04 0f\n\
     IP TTL 3, three routers: 01 05 03 80 00 00 00 00 02 0f 00 00 00 00 02 0f 00 00 00 00 02 0f 00 00 00 00 04 0f\n\
     IP TTL 4, three routers: 01 05 04 80 00 00 00 00 02 0f 00 00 00 00 02 0f 00 00 00 00 02 0f 00 00 00 00 04 0f\n\
     IP TTL 3, the third silent: 01 05 03 80 00 00 00 00 02 0f 00 00 00 00 02 0f 00 00 00 00 03 04 0f\n\
     IP TTL 1, three routers: 01 05 01 80 00 00 00 00 02 0f 00 00 00 00 02 0f 00 00 00 00 02 0f 00 00 00 00 04 0f\n",
    // Lost wins over everything that the rest of the path would bring.
    "lost and denied before: 01 05 02 80 00 00 00 00 02 00 ff ff ff fc 02 0f 00 00 00 00 04 0f\n\
     lost and denied behind: 01 05 01 80 00 00 00 00 02 0f 00 00 00 00 02 00 ff ff ff fc 04 0f\n\
     lost and receiver 0: 01 05 01 80 00 00 00 00 02 0f 00 00 00 00 04 00\n\
     lost, silent and denied: 01 05 03 80 00 00 00 00 03 02 00 ff ff ff fc 02 0f 00 00 00 00 04 00\n",
    // A rate of 0 at the receiver, by a router or by the receiver itself.
    "router 0: 01 05 40 80 00 00 00 00 02 00 ff ff ff fc 04 0f\n\
     receiver 0: 01 05 40 80 00 00 00 00 04 00\n\
     router 0, then 15: 01 05 40 80 00 00 00 00 02 00 ff ff ff fc 02 0f ff ff ff fc 04 0f\n\
     router 15, then 0: 01 05 40 80 00 00 00 00 02 0f ff ff ff fc 02 00 ff ff ff fc 04 0f\n\
     router 0 among three: 01 0f 40 80 ff ff ff fc 02 07 ff ff ff fc 02 00 ff ff ff ff 02 07 ff ff ff fc 04 0f\n\
     IP TTL 2, router 0: 01 05 02 80 00 00 00 00 02 00 ff ff ff fc 04 0f\n",
    // Unanswered wins over a silent router.
    "silent, then router 0: 01 05 40 80 00 00 00 00 03 02 00 ff ff ff fc 04 0f\n\
     router 0, then silent: 01 05 40 80 00 00 00 00 02 00 ff ff ff fc 03 04 0f\n\
     silent, receiver 0: 01 05 40 80 00 00 00 00 03 04 00\n",
    // A silent router leaves QS TTL as it is, so TTL Diff is wrong: the sender's refusal 14.
    "one silent router: 01 05 40 80 00 00 00 00 03 04 0f\n\
     two silent routers: 01 05 40 80 00 00 00 00 03 03 04 0f\n\
     silent first: 01 05 40 80 00 00 00 00 03 02 03 ff ff ff fc 02 04 ff ff ff fc 04 0f\n\
     silent in the middle: 01 05 40 80 00 00 00 00 02 03 ff ff ff fc 03 02 04 ff ff ff fc 04 0f\n\
     silent last: 01 05 40 80 00 00 00 00 02 03 ff ff ff fc 02 04 ff ff ff fc 03 04 0f\n\
     silent, TTL Diff 0: 01 05 40 40 00 00 00 00 03 04 0f\n\
     silent, QS TTL past 0: 01 05 40 01 00 00 00 00 02 0f 00 00 00 00 02 0f 00 00 00 00 03 04 0f\n",
];
