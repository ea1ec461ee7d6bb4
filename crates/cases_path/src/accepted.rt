// Runs that end with a rate: the least of the code asked, the ceilings of the routers and that of the receiver.

pub const CASES: &[&str] = &[
    // The code asked, a router's ceiling or the receiver's decides.
    "document 01's whole case: 01 05 40 80 00 00 00 00 02 03 ff ff ff fc 04 0f\n\
     no router: 01 05 40 80 00 00 00 00 04 0f\n\
     no router, receiver 2: 01 05 40 80 00 00 00 00 04 02\n\
     code 1: 01 01 40 80 00 00 00 00 04 0f\n\
     code 9: 01 09 40 80 00 00 00 00 04 0f\n\
     code 10: 01 0a 40 80 00 00 00 00 04 0f\n\
     code 15: 01 0f 40 80 00 00 00 00 04 0f\n\
     code 15, router 1, receiver 15: 01 0f 40 80 00 00 00 00 02 01 ff ff ff fc 04 0f\n\
     code 15, router 15, receiver 1: 01 0f 40 80 00 00 00 00 02 0f ff ff ff fc 04 01\n",
    // A router's ceiling beside the code asked and beside the receiver's.
    "code 7, router 6: 01 07 40 80 00 00 00 00 02 06 ff ff ff fc 04 0f\n\
     code 7, router 7: 01 07 40 80 00 00 00 00 02 07 ff ff ff fc 04 0f\n\
     code 7, router 8: 01 07 40 80 00 00 00 00 02 08 ff ff ff fc 04 0f\n\
     code 12, router 10, receiver 11: 01 0c 40 80 00 00 00 00 02 0a ff ff ff fc 04 0b\n\
     code 10, router 12, receiver 11: 01 0a 40 80 00 00 00 00 02 0c ff ff ff fc 04 0b\n",
    // The least ceiling stands first, in the middle or last; several steps down.
    "least ceiling first: 01 0c 40 80 00 00 00 00 02 02 ff ff ff fc 02 09 ff ff ff fc 02 0e ff ff ff fc 04 0f\n\
     least ceiling in the middle: 01 0c 40 80 00 00 00 00 02 09 ff ff ff fc 02 02 ff ff ff fc 02 0e ff ff ff fc 04 0f\n\
     least ceiling last: 01 0c 40 80 00 00 00 00 02 0e ff ff ff fc 02 09 ff ff ff fc 02 02 ff ff ff fc 04 0f\n\
     five steps down: 01 0f 40 80 ff ff ff fc 02 0c 00 00 00 00 02 09 12 34 56 78 02 04 00 00 00 00 02 02 ff ff ff fc 04 01\n",
    // Nonces and fresh nonces: a router that lowers the rate honestly never spoils what the sender compares.
    "nonce of ones, fresh zeros: 01 0f 40 80 ff ff ff fc 02 01 00 00 00 00 04 0f\n\
     nonce of zeros, fresh ones: 01 0f 40 80 00 00 00 00 02 0e ff ff ff fc 04 0f\n\
     fresh ones, nothing lowered: 01 03 40 80 00 00 00 00 02 0f ff ff ff fc 04 0f\n\
     reserved bits in the request: 01 05 40 80 00 00 00 03 04 0f\n\
     reserved bits in the fresh word: 01 05 40 80 00 00 00 00 02 01 00 00 00 03 04 0f\n\
     reserved bits in both: 01 05 40 80 ff ff ff ff 02 01 00 00 00 03 04 0f\n",
    // QS TTL starts anywhere and falls modulo 256. A QS TTL of 0 is no denial.
    "QS TTL 0, five routers: 01 05 40 00 00 00 00 00R05 04 0f\n\
     QS TTL 2, five routers: 01 05 40 02 00 00 00 00R05 04 0f\n\
     QS TTL 5, five routers: 01 05 40 05 00 00 00 00R05 04 0f\n\
     QS TTL above IP TTL: 01 05 0a fa 00 00 00 00 02 0f ff ff ff fc 02 04 ff ff ff fc 02 09 ff ff ff fc 04 0f\n\
     QS TTL equal to IP TTL: 01 05 40 40 00 00 00 00 02 03 ff ff ff fc 04 0f\n\
     IP TTL 1, QS TTL 255: 01 05 01 ff 00 00 00 00 04 0f\n\
     IP TTL 255, QS TTL 0: 01 05 ff 00 00 00 00 00 02 0f ff ff ff fc 04 0f\n",
    // A body's bytes are no kinds.
    "request's body of kinds: 01 04 04 03 02 01 04 04 04 0f\n\
     router's body of kinds: 01 05 40 80 00 00 00 00 02 04 0f 04 0f 03 04 0f\n\
     receiver's ceiling 4: 01 05 40 80 00 00 00 00 04 04\n",
];
