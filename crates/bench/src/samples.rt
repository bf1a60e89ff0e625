//! What the layers are driven over: a browser's requests, a server's responses, and text of header fields.

/// The block of the first request of a connection: ten fields, with Huffman text, nine of them new to the table but for
/// those of the static one (RFC 7541, section 6).
pub const FIRST_BLOCK: &[u8] = b"\
    \x82\x04\x9b\x62\xa2\xf8\x43\x02\x00\x9c\x60\x01\x60\x76\x24\xc4\xa0\xab\x04\x00\x02\xf3\xa6\x9a\x3f\xca\xc7\x31\
    \x60\x07\x41\x8c\xf1\xe3\xc2\xe5\xf2\x3a\x6b\xa0\xab\x90\xf4\xff\x86\x7a\xb5\xd0\x7f\x66\xa2\x81\xb0\xda\xe0\x53\
    \xfa\xfc\x08\x7e\xd4\xce\x6a\xad\xf2\xa7\x97\x9c\x89\xc6\xbe\xd4\xb3\xbd\xc0\x89\xe5\xc1\xfd\xa9\x88\xa4\xea\x76\
    \x04\x00\x80\x01\x00\x54\xc2\x6b\x0b\x29\xfc\xb0\x11\x3c\xb8\x3f\x53\xb0\x49\x7c\xa5\x89\xd3\x4d\x1f\x43\xae\xba\
    \x0c\x41\xa4\xc7\xa9\x8f\x33\xa6\x9a\x3f\xdf\x9a\x68\xfa\x1d\x75\xd0\x62\x0d\x26\x3d\x4c\x79\xa6\x8f\xbe\xd0\x01\
    \x77\xfe\xbe\x58\xf9\xfb\xed\x00\x17\x7b\x51\x8b\x2d\x4b\x70\xdd\xf4\x5a\xbe\xfb\x40\x05\xdb\x90\x73\x91\x9d\x29\
    \xae\xe3\x0c\x78\xf1\xe1\x72\xf9\x1d\x35\xd0\x55\xc8\x7a\x58\x60\x9c\x41\x50\x83\x1e\xa8\x1e\x94\x2d\x15\xa6\xe5\
    \x21\x4a\x30\xb8\xe8\xdb\x1b\x2e\x48\x59\x24\x6a\x32\x8c\x4d\xb4\xcf";

/// Blocks of later requests, in turn: nine indices, and a path that isn't inserted.
pub const LATER_BLOCKS: [&[u8]; 9] = [
    b"\
    \x82\x04\x9b\x62\xa2\xf8\x43\x02\x00\x9c\x60\x02\x60\x76\x24\xc4\xa0\xab\x04\x0c\xba\xbc\xe9\xa6\x8f\xf2\xb1\xcc\
    \x58\x03\xc3\x86\xc2\xc1\xc0\x90\xbf\xbe",
    b"\
    \x82\x04\x9b\x62\xa2\xf8\x43\x02\x00\x9c\x60\x0c\xb0\x3b\x12\x62\x50\x55\x82\x07\x5a\x5e\x74\xd3\x47\xf9\x58\xe6\
    \x2c\x02\xc3\x86\xc2\xc1\xc0\x90\xbf\xbe",
    b"\
    \x82\x04\x9b\x62\xa2\xf8\x43\x02\x00\x9c\x60\x0d\x30\x3b\x12\x62\x50\x55\x82\x10\x85\x79\xd3\x4d\x1f\xe5\x63\x98\
    \xb0\x33\xc3\x86\xc2\xc1\xc0\x90\xbf\xbe",
    b"\
    \x82\x04\x9c\x62\xa2\xf8\x43\x02\x00\x9c\x60\x0d\xb0\x3b\x12\x62\x50\x55\x82\x16\x9e\x5e\x74\xd3\x47\xf9\x58\xe6\
    \x2c\x0d\x7f\xc3\x86\xc2\xc1\xc0\x90\xbf\xbe",
    b"\
    \x82\x04\x9c\x62\xa2\xf8\x43\x02\x00\x9c\x60\x0e\x30\x3b\x12\x62\x50\x55\x82\x17\x9b\x5e\x74\xd3\x47\xf9\x58\xe6\
    \x2c\x0d\xff\xc3\x86\xc2\xc1\xc0\x90\xbf\xbe",
    b"\
    \x82\x04\x9b\x62\xa2\xf8\x43\x02\x00\x9c\x60\x0e\xb0\x3b\x12\x62\x50\x55\x82\x21\x09\x79\xd3\x4d\x1f\xe5\x63\x98\
    \xb0\x39\xc3\x86\xc2\xc1\xc0\x90\xbf\xbe",
    b"\
    \x82\x04\x9c\x62\xa2\xf8\x43\x02\x00\x9c\x60\x0f\x30\x3b\x12\x62\x50\x55\x82\x26\xdf\x5e\x74\xd3\x47\xf9\x58\xe6\
    \x2c\x0e\xff\xc3\x86\xc2\xc1\xc0\x90\xbf\xbe",
    b"\
    \x82\x04\x9c\x62\xa2\xf8\x43\x02\x00\x9c\x60\x0f\xb0\x3b\x12\x62\x50\x55\x82\x27\xdc\x5e\x74\xd3\x47\xf9\x58\xe6\
    \x2c\x0f\x7f\xc3\x86\xc2\xc1\xc0\x90\xbf\xbe",
    b"\
    \x82\x04\x9c\x62\xa2\xf8\x43\x02\x00\x9c\x60\x20\x60\x76\x24\xc4\xa0\xab\x05\x96\x59\x5e\x74\xd3\x47\xf9\x58\xe6\
    \x2c\x0f\xff\xc3\x86\xc2\xc1\xc0\x90\xbf\xbe",
];

/// A response's head with 8 fields.
pub const SMALL_HEAD: &[u8] = b"HTTP/1.1 200 OK\r\n\
    Date: Sun, 22 Nov 2026 10:00:00 GMT\r\n\
    Server: Apache/2.4.62 (Unix)\r\n\
    Last-Modified: Sat, 21 Nov 2026 08:30:00 GMT\r\n\
    ETag: \"5c3f-62d1a8b1e4a40\"\r\n\
    Accept-Ranges: bytes\r\n\
    Content-Length: 23615\r\n\
    Cache-Control: max-age=3600\r\n\
    Content-Type: text/html; charset=utf-8\r\n\
    \r\n";

/// A response with 8 fields and a body of two octets.
pub const SMALL_RESPONSE: &[u8] = b"HTTP/1.1 200 OK\r\n\
    Date: Sun, 22 Nov 2026 10:00:00 GMT\r\n\
    Server: Apache/2.4.62 (Unix)\r\n\
    Last-Modified: Sat, 21 Nov 2026 08:30:00 GMT\r\n\
    ETag: \"5c3f-62d1a8b1e4a40\"\r\n\
    Accept-Ranges: bytes\r\n\
    Content-Length: 2\r\n\
    Cache-Control: max-age=3600\r\n\
    Content-Type: text/html; charset=utf-8\r\n\
    \r\n\
    hi";

/// A response with a body of two octets in a chunk, and no fields that are passed back.
pub const BARE_RESPONSE: &[u8] = b"HTTP/1.1 200 OK\r\n\
    Transfer-Encoding: chunked\r\n\
    \r\n\
    2\r\nhi\r\n0\r\n\r\n";

/// The same with 8 fields in its head.
pub const CHUNKED_RESPONSE: &[u8] = b"HTTP/1.1 200 OK\r\n\
    Transfer-Encoding: chunked\r\n\
    Date: Sun, 22 Nov 2026 10:00:00 GMT\r\n\
    Server: Apache/2.4.62 (Unix)\r\n\
    Last-Modified: Sat, 21 Nov 2026 08:30:00 GMT\r\n\
    ETag: \"5c3f-62d1a8b1e4a40\"\r\n\
    Accept-Ranges: bytes\r\n\
    Content-Language: en-US\r\n\
    Cache-Control: max-age=3600\r\n\
    Content-Type: text/html; charset=utf-8\r\n\
    \r\n\
    2\r\nhi\r\n0\r\n\r\n";

/// The same with these 8 fields in its head, and in its trailers too.
pub const TRAILING_RESPONSE: &[u8] = b"HTTP/1.1 200 OK\r\n\
    Transfer-Encoding: chunked\r\n\
    Date: Sun, 22 Nov 2026 10:00:00 GMT\r\n\
    Server: Apache/2.4.62 (Unix)\r\n\
    Last-Modified: Sat, 21 Nov 2026 08:30:00 GMT\r\n\
    ETag: \"5c3f-62d1a8b1e4a40\"\r\n\
    Accept-Ranges: bytes\r\n\
    Content-Language: en-US\r\n\
    Cache-Control: max-age=3600\r\n\
    Content-Type: text/html; charset=utf-8\r\n\
    \r\n\
    2\r\nhi\r\n0\r\n\
    Date: Sun, 22 Nov 2026 10:00:00 GMT\r\n\
    Server: Apache/2.4.62 (Unix)\r\n\
    Last-Modified: Sat, 21 Nov 2026 08:30:00 GMT\r\n\
    ETag: \"5c3f-62d1a8b1e4a40\"\r\n\
    Accept-Ranges: bytes\r\n\
    Content-Language: en-US\r\n\
    Cache-Control: max-age=3600\r\n\
    Content-Type: text/html; charset=utf-8\r\n\
    \r\n";

/// A response's head with 30 fields.
pub const LARGE_HEAD: &[u8] = b"HTTP/1.1 200 OK\r\n\
    Date: Sun, 22 Nov 2026 10:00:00 GMT\r\n\
    Server: Apache/2.4.62 (Unix)\r\n\
    Last-Modified: Sat, 21 Nov 2026 08:30:00 GMT\r\n\
    ETag: \"5c3f-62d1a8b1e4a40\"\r\n\
    Accept-Ranges: bytes\r\n\
    Content-Length: 23615\r\n\
    Cache-Control: max-age=3600\r\n\
    Content-Type: text/html; charset=utf-8\r\n\
    Vary: Accept-Encoding\r\n\
    Age: 120\r\n\
    Via: 1.1 cache-7\r\n\
    Expires: Sun, 22 Nov 2026 11:00:00 GMT\r\n\
    Content-Language: en-US\r\n\
    Content-Location: /news/index.en.html\r\n\
    Strict-Transport-Security: max-age=63072000; includeSubDomains\r\n\
    X-Content-Type-Options: nosniff\r\n\
    X-Frame-Options: SAMEORIGIN\r\n\
    X-XSS-Protection: 0\r\n\
    Referrer-Policy: strict-origin-when-cross-origin\r\n\
    Permissions-Policy: geolocation=(), microphone=()\r\n\
    Content-Security-Policy: default-src 'self'; img-src *; object-src 'none'\r\n\
    Cross-Origin-Opener-Policy: same-origin\r\n\
    Access-Control-Allow-Origin: *\r\n\
    Set-Cookie: session=8f14e45fceea167a5a36dedd4bea2543; Path=/; HttpOnly\r\n\
    Set-Cookie: theme=dark; Path=/; Max-Age=31536000\r\n\
    Link: </style.css>; rel=preload; as=style\r\n\
    X-Request-Id: d3b07384d113edec49eaa6238ad5ff00\r\n\
    X-Cache: HIT\r\n\
    X-Served-By: cache-fra-7\r\n\
    Server-Timing: app;dur=12.5, db;dur=3.1\r\n\
    \r\n";

/// The values of a user-agent, an accept and a cookie field.
pub const TEXT: &[u8] =
    b"Mozilla/5.0 (X11; Linux x86_64; rv:128.0) Gecko/20100101 Firefox/128.0 text/html,applicat\
    ion/xhtml+xml,application/xml;q=0.9,*/*;q=0.8 session=8f14e45fceea167a5a36dedd4bea2543";
