//! Replies as a client reads them: lines whose answers come from an independent model of the rules.
ghost use Rattle.std.specs.Prelude.{◌<◌, IfOk};

use client_model::Reply;
use client_wire::{Lacks, WireRefusal, read_reply};
use q_outside::{BufferedSource, Failed, PlainSource, Source};
use std::alloc::Global;
use std::test::Fail;

/// The lines: the bytes, of which `|` is CR LF, `'` a double quote, `%` and two hexadecimal digits any byte,
/// and `^N:` says that what follows stands N times; then what they are read as. Of a body its length is that
/// which the head says, and its bytes are the last of those that were taken.
const LINES: &str = "\
%0a|HTTP/1.1 400 Bad Request|Date: Sun, 09 Sep 2001 01:46:40 GMT|Content-Type: application/json|Content-\
Length: 62|Cache-Control: no-store||{'error':'bad_filter','field':'f','place':8,'reason':'syntax'} = o\
k status=400 commit=0 version=- until=1000000000 date=1000000000 max_age=- tag=- lacks=11 taken=207
Quaestor-Commit: 5|Date: Thu, 01 Jan 1970 00:00:00 GMT|Content-Type: application/json|Content-Length: 12\
|Cache-Control: no-store|Quaestor-Commit: 1||{'commit':1} = refused bad_reply 0
%0dHTTP/1.1 404 Not Found|Date: Sun, 09 Sep 2001 01:46:40 GMT|Content-Type: application/json|Content-Len\
gth: 18|Cache-Control: max-age=3600|Quaestor-Commit: 0|Quaestor-Until: 1000003600||{'error':'absent'\
} = refused bad_reply 0
|HTTP/1.1 200 OK|Date: Sun, 09 Sep 2001 01:46:40 GMT|Content-Type: application/json|Content-Length: 13|C\
ache-Control: no-store||{'horizon':0} = ok status=200 commit=0 version=- until=1000000000 date=100000000\
0 max_age=- tag=- lacks=11 taken=148
HTTP/1.1 201 Created|Date: Sun, 09 Sep 2001 01:46:40 GMT|Content-Type:application/json|Content-Length: %\
012|Cache-Control: no-store|Quaestor-Commit: 2||{'commit':2} = refused bad_reply 0
%0a|HTTP/1.1 404 Not Found|Date: Thu, 01 Jan 1970 00:00:00 GMT|Content-Type: application/json|Content-Le\
ngth: 18|Cache-Control: max-age=3600|Quaestor-Commit: 2|Quaestor-Until: 3600||{'error':'absent'} = ok st\
atus=404 commit=2 version=- until=3600 date=0 max_age=3600 tag=- lacks=00 taken=207
%0dDate: Thu, 01 Jan 1970 00:00:00 GMT|Content-Type: application/json|Content-Length: 12|Cache-Control\
: no-store|Quaestor-Commit: 1||{'commit':1} = refused bad_reply 0
Date: Sun, 09 Sep 2001 01:46:40 GMT|Content-Type: application/json|Content-Length: 12|Cache-Control: no-\
store|Quaestor-Commit: 1||{'commit':1} = refused bad_reply 0
HTTP/1.1 404 Not Found|Date: Thu, 01 Jan 1970 00:01:40 GMT|Content-Type: application/json|Content-Length\
: 18|Cache-Control: max-age=3600|Quaestor-Commit: 0|Quaestor-Until: 3700||{'error':'absent'} = ok status\
=404 commit=0 version=- until=3700 date=100 max_age=3600 tag=- lacks=00 taken=204
HTTP/1.1 404 Not Found|Date: Thu, 01 Jan 1970 00:01:40 GMT|Content-Type: application/json|Content-Length\
: 18|Cache-Control: public, max-age=3600, s-maxage=86400|Quaestor-Commit: 0|Quaestor-Until: 3700||{'err\
or':'absent'} = ok status=404 commit=0 version=- until=3700 date=100 max_age=3600 tag=- lacks=00 taken=228
HTTP/1.1 200 OK|Date: Sun, 09 Sep 2001 01:46:40 GMT|Content-Type: application/json|Content-Length: x|Con\
tent-Length: 42|Cache-Control: no-store|| = refused bad_reply 102
|HTTP/1.1 400 Bad Request|Date: Thu, 01 Jan 1970 00:00:00 GMT|Quaestor-Until: x|Content-Type: applicatio\
n/json|Content-Length: 62|Cache-Control: no-store||{'error':'bad_filter','field':'f','place':4,'reason':\
'syntax'} = refused bad_reply 81
HTTP/1.1 400 Bad Request|Date: Sun, 09 Sep 2001 01:46:40 GMT = refused truncated
HTTP/1.1 412 Precondition Failed|Date: Thu, 01 Jan 1970 00:00:00 GMT|Content-Type: application/json|Cont\
ent-Length: 37|Cache-Control: no-store||{'error':'precondition','found':null} = ok status=412 commit=0 v\
ersion=- until=0 date=0 max_age=- tag=- lacks=11 taken=187
HTTP/1.1 400 Bad Request|Date: Sun, 09 Sep 2001 01:46:40 GMT|Content-Type: application/json|Content-Leng\
th: 62|Cache-Control: no-store||{'error':'bad_filter','field':'o','place':0,'reason':'syntax'} = ok stat\
us=400 commit=0 version=- until=1000000000 date=1000000000 max_age=- tag=- lacks=11 taken=204
HTTP/1.1 200 OK|Date: Thu, 01 Jan 1970 00:00:00 GMT|Content-Type: application/json|Date: x|ETag: '0'|Cac\
he-Control: max-age=3600|Quaestor-Commit: 0|Quaestor-Until: 3600|| = refused bad_reply 92
HTTP/1.1 404 Not Found|Date: Thu, 01 Jan 1970 00:1:40 GMT|Content-Type: application/json|Content-Length\
: 18|Cache-Control: max-age=3600|Quaestor-Commit: 1|Quaestor-Until: 3700||{'error':'absent'} = refused b\
ad_reply 30
HTTP/1.1 400 Bad Request|Date: Sun, 09 Sep 2001 01:46:40 GMT|Content-Type: application/json|Content-Leng\
th: 22|Content-Length: 0|Cache-Control: no-store||{'error':'bad_target'} = refused bad_reply 131
HTTP/1.1 201 Created|Date: Thu, 01 Jan 1970 00:01:40 GMT|Content-Type: application/json|Cache-Control: n\
o-store|Quaestor-Commit: 2||{'commit':2} = refused bad_reply 0
HTTP/1.1 412 Precondition Failed|Date: Thu, 01 Jan 1970 00:01:40 GMT|Content-Type: application/json|Cont\
ent-Length: 37|Cache-Control: no-store||{'error':'precondition','found':null} = ok status=412 commit=0 v\
ersion=- until=100 date=100 max_age=- tag=- lacks=11 taken=187
HTTP/1.1 201 Created|Date: Thu, 01 Jan 1970 00:00:00 GMT|Content-Type: application/json|Content-Length\
: 12|Cache-Control: no-store|Quaestor-Commit: 1||{'commit':1} = ok status=201 commit=1 version=- until=\
0 date=0 max_age=- tag=- lacks=01 taken=170
HTTP/1.1 200 OK|Date: Thu, 01 Jan 1970 00:00:00 GMT|Content-Type: application/json|Content-Length: 11|Ca\
che-Control: no-store||{'front':0} = ok status=200 commit=0 version=- until=0 date=0 max_age=- tag=- lac\
ks=11 taken=144
HTTP/1.1 200 OK|Date: Sun, 09 Sep 2001 01:46:40 GMT|Content-Type: application/ = refused truncated
HTTP/1.1 400 Bad Request|Date: x|Content-Type: application/json|Content-Length: 19|Cache-Control: no-sto\
re||{'error':'bad_tag'} = refused bad_reply 32
HTTP/1.1 400 Bad Request|Date: Sun, 09 Sep 2001 01:46:40 GMT|Content-Type: application/json|Content-Leng\
th: 63|Cache-Control: no-store||{'error':'bad_filter','field':'o','place':16,'reason':'syntax'} = ok sta\
tus=400 commit=0 version=- until=1000000000 date=1000000000 max_age=- tag=- lacks=11 taken=205
HTTP/1.1 200 OK|Date: Thu, 01 Jan 1970 00:01:40 GMT|Content-Type: application/octet-stream|Transfer-Enco\
ding: chunked|Cache-Control: no-store||QSF1%06%11^23:%00d^16384:%00 = refused bad_reply 113
HTTP/1.1 200 OK|Date: Thu, 01 Jan 1970 00:01:40 GMT|Content-Type: application/json|Content-Length: 12|Ca\
che-Control: no-store|Quaestor-Commit: 1||{'commit':1} = ok status=200 commit=1 version=- until=100 date\
=100 max_age=- tag=- lacks=01 taken=165
HTTP/1.1 405 Method Not%01 Allowed|Date: Sun, 09 Sep 2001 01:46:40 GMT|Content-Type: application/js%f8on\
|Content-Length: 22|Cache-Control: no-store|Allow: GET, HEAD||{'error':'bad_method'} = refused bad_repl\
y 0
Date: Thu, 01 Jan 1970 00:00:00 GMT|Content-Type: application/octet-stream|Content-Length: 16414|Cache-C\
ontrol: no-store||QSF1%06%11^15:%00%01^16392:%00 = refused bad_reply 0
HTTP/1.1 400 Bad Request|Date: Thu, 01 Jan 1970 00:01:40 GMT|Content-Type: application/json|Content-Leng\
th: 22%f4%07|Cache-Control: no-store||{'error':'bad_target'} = refused bad_reply 0
HTTP/1.1 200 OK|Date: Thu, 01 Jan 1970 00:01:40 GMT|Content-Type: application/json|Content-Length: 12|Ca\
che-Control: no-store|Quaestor-Commit: 2||{'commit':2} = ok status=200 commit=2 version=- until=100 date\
=100 max_age=- tag=- lacks=01 taken=165
HTTP/1.1 400 Bad Request|Content-Type: application/json|Content-Length: 62|Cache-Control: no-store||{'er\
ror':'bad_filter','field':'o','place':8,'reason':'syntax'} = ok status=400 commit=0 version=- until=0 da\
te=0 max_age=- tag=- lacks=11 taken=167
%0dHTTP/1.1 200 OK|Date: Sun, 09 Sep 2001 01:46:40 GMT|Content-Type: application/octet-stream|Content-Le\
ngth: 16414|Cache-Control: no-store|| = refused bad_reply 0
HTTP/1.1 404 Not Found|Date: Thu, 01 Jan 1970 00:00:00 GMT|Content-Type: application/json|Content-Length\
: 18|Cache-Control: max-age=3600|Quaestor-Commit: 0|Quaestor-Until: 3600|Date: Thu, 01 Jan 1970 00:01:4\
1 GMT||{'error':'absent'} = refused bad_reply 190
|HTTP/1.1 200 OK|Date: Thu, 01 Jan 1970 00:00:00 GMT|Content-Length: 12|Cache-Control: no-store|Quaestor\
-Commit: 1||{'commit':1} = ok status=200 commit=1 version=- until=0 date=0 max_age=- tag=- lacks=01 take\
n=135
HTTP/1.1 400 Bad Request|Date: Thu, 01 Jan 1970 00:01:40 GMT|Content-Type: application/json|Content-Leng\
th: 63|Cache-Control: no-store||{'error':'bad_filter','field':'f','place':22,'reason':'syntax'} = ok sta\
tus=400 commit=0 version=- until=100 date=100 max_age=- tag=- lacks=11 taken=205
Date: Sun, 09 Sep 2001 01:46:40 GMT|Content-Type: application/json|Content-Length: 22|Cache-Control: no-\
store|| = refused bad_reply 0
HTTP/1.1 400 Bad Request|Date: Thu, 01 Jan 1970 00:00:00 GMT|Content-Type: application/json|Content-Leng\
th: 19|Cache-Control: no-store||{'error':'bad_tag'} = ok status=400 commit=0 version=- until=0 date=0 ma\
x_age=- tag=- lacks=11 taken=161
HTTP/1.1 200 OK|Date: Sun, 09 Sep 2001 01:46:40 GMT|Content-Type: application/json|Content-Length: 11|Ca\
che-Control: no-store||{'front':0} = ok status=200 commit=0 version=- until=1000000000 date=1000000000 m\
ax_age=- tag=- lacks=11 taken=144
HTTP/1.1 200 OK|Date: Sun, 09 Sep 2001 01:46:40 GMT|Contet-Type: application/json|Content-Length: 2|ETag\
: '0'|Cache-Control: max-age=3600|Quaestor-Commit: 0|Quaestor-Until: 1000003600||[] = ok status=200 comm\
it=0 version=- until=1000003600 date=1000000000 max_age=3600 tag=0 lacks=00 taken=196
HTTP/1.1 200 OK|Date: Thu, 01 Jan 1970 00:01:40 GMT|Content-Type: application/json|Content-Length: 11|Ca\
che-Control: no-store||{'front':0} = ok status=200 commit=0 version=- until=100 date=100 max_age=- tag=\
- lacks=11 taken=144
%0a|HTTP/1.1 200 OK|ETag: W/'1'|Content-Type: application/json|Content-Length: 2|ETag: '0'|Cache-Control\
: max-age=3600|Quaestor-Commit: 0|Quaestor-Until: 1000003600||[] = refused bad_reply 90
Date: Thu, 01 Jan 1970 00:00:00 GMT|Content-Type: application/json|Content-Length: 18|Cache-Control: max\
-age=3600|Quaestor-Commit: 0|Quaestor-Until: 3600|| = refused bad_reply 0
HTTP/1.1 200 OK|Date: Sun, 09 Sep 2001 01:46:40 GMT|Content-Type: application/octet-stream|Content-Lengt\
h: 16414|Cache-Control: no-store||QSF1%06%11^20:%00;%9a%ca^16385:%00 = ok status=200 commit=0 version=\
- until=1000000000 date=1000000000 max_age=- tag=- lacks=11 taken=16558
HTTP/1.1 304 Not Modified|Date: Sun, 09 Sep 2001 01:46:40 GMT|ETag: '1'|Cache-Control: max-age=3600|Quae\
stor-Until: 1000003600|| = ok status=304 commit=0 version=- until=1000003600 date=1000000000 max_age=360\
0 tag=1 lacks=10 taken=134
HTTP/1.1 400 Bad Request|Date: Thu, 01 Jan 1970 00:01:40 GMT|Content-Type: application/json|Content-Leng\
th: 62|Cache-Control: no-store|| = refused truncated
HTTP/1.1 201 Created|Date: Thu, 01 Jan 1970 00:01:40 GMT|Content-Type: application/json|Content-Length\
: 12|Cache-Control: no-store|Quaestor-Commit: 2||{'commit':2} = ok status=201 commit=2 version=- until=1\
00 date=100 max_age=- tag=- lacks=01 taken=170
HTTP/1.1 404 Not Found|Date: Sun, 09 Sep 2001 01:46:40 GMT|Content-Type: application/json|Content-Length\
: 18|Cache-Control: max-age=3600|Quaestor-Commit: 1|Quaestor-Until: 1000003600||{'error':'absent'} = o\
k status=404 commit=1 version=- until=1000003600 date=1000000000 max_age=3600 tag=- lacks=00 taken=210
HTTP/1.1 400 Bad Request|Date: Sun, 09 Sep 2001 01:46:40 GMT|Content-Length: 63|Cache-Control: no-store|\
|{'error':'bad_filter','field':'f','place':44,'reason':'syntax'} = ok status=400 commit=0 version=- unti\
l=1000000000 date=1000000000 max_age=- tag=- lacks=11 taken=173
HTTP/1.1 200 OK|Date: Thu, 01 Jan 1970 00:01:40 GMT|Content-Type: application/octet-stream|Contet-Length\
: 16414|Cache-Control: no-store|| = refused bad_reply 0
HTTP/1.1 201 Created|Date: Thu, 01 Jan 1970 00:00:00 GMT|Content-Type: application/json|Content-Length\
: 12|Cache-Control: no-store|Quaestor-Commit: 1||{'commit':1} = ok status=201 commit=1 version=- until=\
0 date=0 max_age=- tag=- lacks=01 taken=170
|HTTP/1.1 400 Bad Request|Content-Type: application/json|Content-Length: 22|Cache-Control: no-store|\
| = refused truncated
|HTTP/ = refused truncated
HTTP/1.1 201 Created|Date: Sun, 09 Sep 2001 01:46:40 GMT|Content-Type: application/json|Content-Length:\
|  12|Cache-Control: no-store|Quaestor-Commit: 1||{'commit':1} = refused bad_reply 0
HTTP/1.1 412 Precondition Failed|Date: Thu, 01 Jan 1970 00:01:40 GMT|Content-Type: applicatio|n/json|Con\
tent-Length: 37|Cache-Control: no-store||{'error':'precondition','found':null} = refused bad_reply 0
Date: Thu, 01 Jan 1970 00:00:00 GMT|ETag: '0'|Cache-Control: max-age=3600|Quaestor-Commit: 0|Quaestor-Un\
til: 3600|| = refused bad_reply 0
Date: Sun, 09 Sep 2001 01:46:40 GMT|Content-Type: application/json|Content-Length: 2|ETag: '0'|Cache-Con\
trol: max-age=3600|Quaestor-Commit: 0|Quaestor-Until: 1000003600||[] = refused bad_reply 0
HTTP/1.1 201 Created|Date: Thu, 01 Jan 1970 00:01:40 GMT|Content-Type: application/json|Content-Length\
: 12|Cache-Control: no-store|Quaestor-Commit: 1||{'commit':1} = ok status=201 commit=1 version=- until=1\
00 date=100 max_age=- tag=- lacks=01 taken=170
|HTTP/1.1 200 OK|Date: Thu, 01 Jan 1970 00:00:00 GMT|Content-Type: application/json|Cache-Control: no-st\
ore||{'horizon':0} = refused bad_reply 0
HTTP/1.1 200 OK|Date: Thu, 01 Jan 1970 00:00:00 GMT|Content-Type: application/json|Transfer-Encoding: ch\
unked|Content-Length: 11|Cache-Control: no-store||{'front':1} = refused bad_reply 105
HTTP/1.1 200 OK|Date: Thu, 01 Jan 1970 00:00:00 GMT|Content-Type: application/json|Content-Length: 11|Ca\
che-Control: no-store|Connection: close||{'front':0} = ok status=200 commit=0 version=- until=0 date=0 m\
ax_age=- tag=- lacks=11 taken=163
HTTP/1.1 201 Created|Date: Sun, 09 Sep 2001 01:46:40 GMT|Content-Type: application/json|Date: x|Cache-Co\
ntrol: no-store|Quaestor-Commit: 1||{'commit':1} = refused bad_reply 97
HTTP/1.1 200 OK|Date: Thu, 01 Jan 1970 00:00:00 GMT|Content-Type: application/json|Content-Length: 2|ETa\
g: '0'|Cache-Control: max-age=3600|Quaestor-Commit: 0|Quaestor-Commit: 5|Quaestor-Until: 3600|| = refuse\
d bad_reply 182
HTTP/1.1 400 Bad Request|Date: Thu, 01 Jan 1970 00:01:40 GMT|Content-Type: application/json|Content-Leng\
th: 22|Cache-Control: no-store||{'error':'bad_target'} = ok status=400 commit=0 version=- until=100 date\
=100 max_age=- tag=- lacks=11 taken=164
%0dHTTP/1.1 100 Continue||HTTP/1.1 412 Precondition Failed|Date: Thu, 01 Jan 1970 00:00:00 GMT|Content-T\
ype: application/json|Content-Length: 37|Cache-Control: no-store||{'error':'precondition','found':null\
} = refused bad_reply 0
HTTP/1.1 201 Created|Date: Sun, 09 Sep 2001  = refused truncated
HTTP/1.1 201 Created|Date: Sun, 09 Sep 2001 01:46:40 GMT|Content-Type: application/json|Content-Length\
: 12|Cache-Control: no-store||{'commit':1} = ok status=201 commit=0 version=- until=1000000000 date=1000\
000000 max_age=- tag=- lacks=11 taken=150
%0a|Date: Thu, 01 Jan 1970 00:01:40 GMT|Content-Type: application/json|Content-Length: 36|ETag: '2'|Cach\
e-Control: max-age=1|Quaestor-Commit: 2|Quaestor-Version: 1|Quaestor-Until: 101||{'a':3,'x':{'a':0,'c':{\
}},'%c3%a9%e2%82%ac':3} = refused bad_reply 0
HTTP/1.1 201 Created|Date: Sun, 09 Sep 2001 01:46:40 GMT|Content-Type: application/json|Content-Length\
: 12|Cache-Control: no-store|Quaestor-Commit: 1||{'commit':1} = ok status=201 commit=1 version=- until=1\
000000000 date=1000000000 max_age=- tag=- lacks=01 taken=170
HTTP/1.1 400 Bad Request|Date: Sun, 09 Sep 2001 01:46:40 GMT|Content-Type: application/json|quaestor-ver\
sion: 18446744073709551616|Cache-Control: no-store|| = refused bad_reply 113
HTTP/1.1 201 Created|Date: Sun, 09 Sep 2001 01:46:40 GMT|Content-Type: application/json|Co = refused tru\
ncated
%0dHTTP/1.1 200 OK|Date: Thu, 01 Jan 1970 00:01:40 GMT|Content-Type: application/json|Content-Length: 12\
|Cache-Control: no-store|Quaestor-Commit: 1||{'commit':1} = refused bad_reply 0
|HTTP/1.1 201 Created|Date: Thu, 01 Jan 1970 00:01:40 GMT|Content-Length: 12|Cache-Control: no-store|Qua\
estor-Commit: 1||{'commit':1} = ok status=201 commit=1 version=- until=100 date=100 max_age=- tag=- lack\
s=01 taken=140
HTTP/1.1 200 OK|Date: Thu, 01 Jan 1970 00:00:00 GMT|Content-Type: application/octet-stream|Content-Lengt\
h: x|Cache-Control: no-store||QSF1%06%11^16408:%00 = refused bad_reply 110
Quaestor-Commit: 5|Date: Sun, 09 Sep 2001 01:46:40 GMT|Content-Type: application/json|Content-Length: 37\
|Cache-Control: no-store||{'error':'precondition','found':null} = refused bad_reply 0
HTTP/1.1 201 Created|Date: Thu, 01 Jan 1970 00:01:40 GMT|Content-Type: application/json|Content-Length\
: 12|Cache-Control: no-store|Quaestor-Commit: 1||{'commit':1} = ok status=201 commit=1 version=- until=1\
00 date=100 max_age=- tag=- lacks=01 taken=170
HTTP/1.1 400 Bad Request|Date: Thu, 01 Jan 1970 00:01:41 GMT|Content-Type: application/json|Content-Leng\
th: 19|Cache-Control: no-store||{'error':'bad_tag'} = ok status=400 commit=0 version=- until=101 date=10\
1 max_age=- tag=- lacks=11 taken=161
|HTTP/1.1 200 OK|Date: Sun, = refused truncated
HTTP/1.1 400 Bad Request|Date: Thu, 01 Jan 1970 00:00:00 GMT|Content-Type: application/json|Content-Leng\
th: 0|Cache-Control: no-store||{'error':'bad_filter','field':'o','place':1,'reason':'syntax'} = ok statu\
s=400 commit=0 version=- until=0 date=0 max_age=- tag=- lacks=11 taken=141
Date: Thu, 01 Jan 1970 00:00:00 GMT|Con = refused truncated
HTTP/1.1 404 Not Found|Date: Thu, 01 Jan 1970 00:00:00 GMT|Cache-Control: no-store|Content-Type: applica\
tion/json|Content-Length: 18|Cache-Control: max-age=3600|Quaestor-Commit: 0|Quaestor-Until: 3600||{'erro\
r':'absent'} = ok status=404 commit=0 version=- until=3600 date=0 max_age=- tag=- lacks=00 taken=229
HTTP/1.1 412 Precondition Failed|Date: Sun, 09 Sep 2001 01:46:40 GMT|Content-Type: application/json|Cont\
ent-Length: 37|CacheControl: no-store||{'error':'precondition',ound':null} = refused truncated
HTTP/1.1 412 Precondition Failed|Date: Thu, 01 Jan 1970 00:01:40 GMT|Content-Type: application/json|Cont\
ent-Length: 37|Cache-Control: no-store||{'error':'precondition','found':null} = ok status=412 commit=0 v\
ersion=- until=100 date=100 max_age=- tag=- lacks=11 taken=187
HTTP/1.1 200 OK|Date: Thu, 01 Jan 1970 00:01:40 GMT|Content-Type: application/json|Content-Length: 2|ETa\
g: '0'|Cache-Control: max-age=3600|Quaestor-Commit: 0|Quaestor-Until: 3700||[] = ok status=200 commit=\
0 version=- until=3700 date=100 max_age=3600 tag=0 lacks=00 taken=191
HTTP/1.1 200 OK|Date: Thu, 01 Jan 1970 00:00:00 GMT|Content-Type: application/octet-stream|Date: x|Conte\
nt-Length: 16414|Cache-Control: no-store|| = refused bad_reply 100
%0a|HTTP/1.1 201 Created|Date: Thu, 01 Jan 1970 00:00:00 GMT|Content-Type: application/json|Content-Leng\
th: 12|Cache-Control: no-store|Quaestor-Commit: 1|Content-Length: x||{'commit':1} = refused bad_reply 17\
5
HTTP/1.1 404 Not Found|Date: Sun, 09 Sep 2001 01:46:40 GMT|Content-Type: application/json|Content-Length\
: 18|Cache-Control: max-age=3600|Quaestor-Commit: 0|Quaestor-Until: x|Quaestor-Until: 1000003600||{ = re\
fused bad_reply 178
HTTP/1.1 412 Precondition Failed|Date: Thu, 01 Jan 1970 00:01:40 GMT|Content-Type: application/json|Cont\
ent-Length: 37||{'error':'precondition','found':null} = ok status=412 commit=0 version=- until=100 date=\
100 max_age=- tag=- lacks=11 taken=162
HTTP/1.1 200 OK|Date: Thu, 01 Jan 1970 00:01:40 GMT|Content-Type: application/json%0aCon%ccent-Length: 1\
3|Cache-Control: no-store||{'horizon':0} = refused bad_reply 0
HTTP/1.1 404 Not Found|Date: Thu, 01 Jan 1970 00:01:40-NS GMT|Content-Type: application/json|Content-Len\
gt,h: 18|Cache-Control: max-age=3600|Quaestor-Commit: 0|Quaestor-Until: 3700||{'error':'absent'} = refus\
ed bad_reply 0
HTTP/1.1 400 Bad Request|Content-Type: application/json|Content-Length: 22|Cache-Control: no-store||{'er\
ror':'bad_target'} = ok status=400 commit=0 version=- until=0 date=0 max_age=- tag=- lacks=11 taken=127
|HTTP/1.1 200 OK|Date: Thu, 01 Jan 1970 00:00:00 GMT|Content-Type: application/json|Content-Length: 13|C\
ache-Control: no-store||{'horizon':0} = ok status=200 commit=0 version=- until=0 date=0 max_age=- tag=\
- lacks=11 taken=148
Date: Thu, 01 Jan 1970 00:01:40 GMT|Content-Type: application/json|Content-Length: 18|Cache-Control: max\
-age=3600|Quaestor-Commit: 1|Quaestor-Until: 3700|| = refused bad_reply 0
HTT%05/1.1 20|0 OK|Date: Sun, 09ep 2001 01:46:40 GMT|Con%f8%96tent-Type: application/json|Content-Length\
: 42|Cache-Control: no-store||{'clock':1^9:0,'commits':0,'front':0} = refused bad_reply 0
HTTP/1.1 200 OK|Date: Thu, 01 Jan 1970 00:01:40 GMT|Content-Type: application/json|Content-Length: 2|ETa\
g: '0'|Cache-Control: max-age=3600|Quaestor-Commit: 0|Quaestor-Until: 3700||[] = ok status=200 commit=\
0 version=- until=3700 date=100 max_age=3600 tag=0 lacks=00 taken=191
HTTP/1.1 404 Not Found|Date: Thu, 01 Jan 1970 00:00:00 GMT|Content-Type: application/json|Content-Length\
: 18|Cache-Control: max-age=3600|Quaestor-Commit: 0|Quaestor-Until: 3600||{'error':'absent'} = ok status\
=404 commit=0 version=- until=3600 date=0 max_age=3600 tag=- lacks=00 taken=204
HTTP/1.1 201 Created|Date: Thu, 01 Jan 1970 00:00:00 GMT|Content-{ype: ap%e1%d0plication/json|Content-Le\
ngth: 12|Cache-Contro: n%0do-store|Quaestor-Commit: 1||{'commit':1} = refused bad_reply 0
HTTP/1.1 200 OK|Date: Sun, 09 Sep 2001 01:46:40 GMT|Content-Type: application/json|Content-Length: 39|Ca\
che-Control: no-store||{'from':1,'front':0,'keys':[],'last':0} = ok status=200 commit=0 version=- until=\
1000000000 date=1000000000 max_age=- tag=- lacks=11 taken=172
%0dHTTP/1.1 200 OK|Date:  = refused bad_reply 0
|HTTP/1.1 200 O = refused truncated
HTTP/1.1 413 Payload Too Large|Content-Length: 0|Date: Sun, 09 Sep 2001 01:46:40 GMT|Content-Type: appli\
cation/json|Content-Length:  = refused truncated
HTTP/1.1 200 OK|Date: Sun, 09 Sep 2001 01:46:40 GMT|C = refused truncated
HTTP/1.1 201 Created|Date: Thu, 01 Jan 1970 00:01:40 GMT|Content-Type: application/json|Content-Length\
: 12|Cache-Control: no-store|Quaestor-Commit: 1||{'commit':1} = ok status=201 commit=1 version=- until=1\
00 date=100 max_age=- tag=- lacks=01 taken=170
HTTP/1.1 200 OK|Date: Thu, 01 Jan 1970 00:00:00 GMT|Content-Type: application/json|Content-Length: 13|Ca\
che-Control: no-store||{'horizon':0} = ok status=200 commit=0 version=- until=0 date=0 max_age=- tag=- l\
acks=11 taken=146
%0dHTTP/1.1 404 Not Found|Content-Type: application/json|Content-Length: 18|Cache-Control: max-age=3600|\
Quaestor-Commit: 0|Quaestor-Until: 1000003600|Connection: close||{'error':'absent'} = refused bad_repl\
y 0
|HTTP/1.1 201 Created|Date: Sun, 09 Sep 2001 01:46:40 GMT|Content-Type: application/json|Content-Length\
: 12|Cache-Control: no-store|Quaestor-Commit: 3||{'commit':3} = ok status=201 commit=3 version=- until=1\
000000000 date=1000000000 max_age=- tag=- lacks=01 taken=172
|HTTP/1.1 201 Created|Date: Thu, 01 Jan 1970 00:00:00 GMT|Content-Type: application/json|Content-Length\
: 12|Cache-Control: no-store|Quaestor-Commit: 1||{'commit':1} = ok status=201 commit=1 version=- until=\
0 date=0 max_age=- tag=- lacks=01 taken=172
HTTP/1.1 100 Continue||HTTP/1.1 404 Not Found|Date: Sun, 09 Sep 2001 01:46:40 GMT|Content-Type: applicat\
ion/json|Content-Length: 20|Cache-Control: no-store||{'error':'no_route'} = refused bad_reply 0
HTTP/1.1 201 Created|Date: Sun, 09 Sep 2001 01:46:40 GMT|Content-Type: application/json|Content-Length\
: 12|Cache-Control: no-store|Quaestor-Commit: 2||{'commit':2} = ok status=201 commit=2 version=- until=1\
000000000 date=1000000000 max_age=- tag=- lacks=01 taken=170
HTTP/1.1 200 OK|Date: Thu, 01 Jan 1970 00:01:40 GMT|Content-Type: application/json|Content-Length: 2|ETa\
g: '0'|Cache-Control: max-age=3600|Quaestor-Commit: 0|Quaestor-Until: 3700||[] = ok status=200 commit=\
0 version=- until=3700 date=100 max_age=3600 tag=0 lacks=00 taken=191
|HTTP/1.1 200 OK|Date: Thu, 01 Jan 1970 00:00:00 GMT|Content-Type: application/json|Content-Length: 11|C\
ache-Control: no-store||{'front':0} = ok status=200 commit=0 version=- until=0 date=0 max_age=- tag=- la\
cks=11 taken=146
HTTP/1.1 100 Continue||HTTP/1.1 412 Precondition Failed|Date: Thu, 01 Jan 1970 00:01:40 GMT|Content-Type\
: application/json|Content-Length: 37|Cache-Control: no-store||{'error':'precondition','found':null} = r\
efused bad_reply 0
HP/1.1 201 Created|Date: Thu, 01 Jan 1970 00:00:00 GMT|Content-Type: application/json|Conngth: 12|Cache-\
Control: no-store|Quaestor-Commit: 1||{'comm%7fit':1%11%ee} = refused bad_reply 0
HTTP/1.1 201 Created|Date: Thu, 01 Jan 1970 00:00:00 GMT|Content-Type: application/json|Content-Length\
: 12|Cache-Control: no-store|Quaestor-Commit: 3||{'commit = refused truncated
HTTP/1.1 400 Bad Request|Date: Thu, 01 Jan 1970 00:00:00 GMT|Content-Type: application/json|Content-Leng\
th: 62||{'error':'bad_filter','field':'o','place':2,'reason':'syntax'} = ok status=400 commit=0 version=\
- until=0 date=0 max_age=- tag=- lacks=11 taken=179
HTTP/1.1 400 Bad Request|Date: Thu, 01 Jan 1970 00:01:40 GMT|Content-Type: application/json|Content-Leng\
th: 62|Cache-Control: no-store||{'error':'bad_filter','field':'n','place':1,'reason':'syntax'} = ok stat\
us=400 commit=0 version=- until=100 date=100 max_age=- tag=- lacks=11 taken=204
%0dHTTP/1.1 404 Not Found|Date: Thu, 01 Jan 1970 00:01:40 GMT|Content-Type: application/json|Content-Len\
gth: 18|Cache-Control: max-age=3600|Quaestor-Commit: 0|Quaestor-Until: 3700||{'error':'absent'} = refuse\
d bad_reply 0
HTTP/404 Not Found|Date: Thu, 01 Jan 1970 00:00:00 GMT|Content-Type: application/json|Content-Length: 18\
|Cache-Control: max-age=3600|%83uaestor-Commit: 0|Quaestor-Until: 3600|| = refused bad_reply 0
HTTP/1.1 201 Created|Date: Thu, 01 Jan 1970 00:01:40 GMT|Content-Type: application/json|Content-Length\
: 12|Cache-Control: no-store|Quaestor-Commit: 2||{'commit':2} = ok status=201 commit=2 version=- until=1\
00 date=100 max_age=- tag=- lacks=01 taken=170
%0dHTTP/1.1 200 OK|Date: Thu, 01 Jan 1970 00:00:00 GMT|Transfer-Encoding: chunked|Content-Type: applicat\
ion/json|Content-Length: 39|Cache-Control: no-store||{'from':5,'front':0,'keys':[],'last':0} = refused b\
ad_reply 0
HTTP/1.1 404 Not Found|Date: Sun, 09 Sep 2001 01:46:40 GMT|Content-Type: application/json|Content-Length\
: 18|Cache-Control: max-age=3600|Quaestor-Commit: 0|Quaestor-Until: 1000003600||{'error':'absent'} = o\
k status=404 commit=0 version=- until=1000003600 date=1000000000 max_age=3600 tag=- lacks=00 taken=210
HTTP/1.1 405 Method Not Allowed|Date: Thu, 01 Jan 1970 00:01:40 GMT|Content-Type: application/json|Conte\
nt-Length: 22|Cache-Control: no-store|Allow: GET, HEAD||{'error':'bad_method'} = ok status=405 commit=\
0 version=- until=100 date=100 max_age=- tag=- lacks=11 taken=189
HTTP/1.1 201 Created|Date: Sun, 09 Sep 2001 01:46:40 GMT|Content-Type: application/json|Content-Length\
: 12|Cache-Control: no-store|Quaestor-Commit: 1||{'commit':1} = ok status=201 commit=1 version=- until=1\
000000000 date=1000000000 max_age=- tag=- lacks=01 taken=170
HTTP/1.1 200 OK|Date: Sun, 09 Sep 2 = refused truncated
%0dHTTP/1.1 200 OK|Date: Sun, 09 Sep 2001 01:46:40 GMT|Content-Type: application/json|Content-Length: 11\
|Cache-Control: no-store|Cache-Control: no-store||{'front':1} = refused bad_reply 0
HTTP/1.1 200 OK|Cache-Control: public, max-age=7|Date: Thu, 01 Jan 1970 00:00:00 GMT|Content-Type: appli\
cation/json|Content-Length: 39|Cache-Control: no-store|| = refused truncated
HTTP/1.1 201 Created|Date: Sun, 09 Sep 2001 01:46:40 GMT|Content-Type: application/json|Content-Length\
: 12|Cache-Control: no-store|Quaestor-Commit: 1||{'commit':1} = ok status=201 commit=1 version=- until=1\
000000000 date=1000000000 max_age=- tag=- lacks=01 taken=170
HTTP/1.1 404 Not Found|Date: Thu, 01 Jan 1970 00:00:00 GMT|Content-Type: application/json|Content-Length\
: 18|Cache-Control: max-age=3600|Quaest%99%bcor-Commit: 0|Q%cakuaestor-Until: 3600||{'error':'absent'\
} = refused bad_reply 0
HTTP/1.1 200 OK|Date: Sun, 09 Sep 2001 01:46:40 GMT|Content-Type: application/json|Content-Length: 2|ETa\
g': '1'|Cache-Control: max-age=3600|Quaestor-Commit: 1|Quaestor-Until: 1000003600||[] = refused bad_repl\
y 0
Date: Thu, 01 Jan 1970 00:01:41 GMT|Date: Thu, 01 Jan 1970 00:01:40 GMT|Content-Type: application/json|C\
ontent-Length: 12|Cache-Control: no-store|Quaestor-Commit: 1||{'commit':1} = refused bad_reply 0
HTTP/1.1 412 Precondition Failed|Date: Sun, 09 Sep 2001 01:46:40 GMT|Content-Type: application/json|Cont\
ent-Length: 37|Cache-Control: no-store|Quaestor-Until: x||{'error':'precondition','found':null} = refuse\
d bad_reply 164
HTTP/1.1 201 Created|Date: Thu, 01 Jan 1970 00:01:40 GMT|Content-Type: application/json|Content-Length\
: 12|Cache-Control: no-store|Quaestor-Commit: 1||{'commit':1} = ok status=201 commit=1 version=- until=1\
00 date=100 max_age=- tag=- lacks=01 taken=170
HTTP/1.1 200 OK|Date: Thu, 01 Jan 1970 00:00:00 GMT|Content-Type: application/octet-stream|Content-Lengt\
h: 16414|Cache-Control: no-store|| = refused truncated
HTTP/1.1 200 OK|Date: Sun, 09 Sep 2001 01:46:40 GMT|Content-Type: application/json|Content-Length: 12|Ca\
che-Control: no-store|Quaestor-Commit: 1||{'commit':1} = ok status=200 commit=1 version=- until=10000000\
00 date=1000000000 max_age=- tag=- lacks=01 taken=165
HTTP/1.1 404 Not Found|Date: Sun, 09 Sep 2001 01:46:40 GMT|Content-Type: application/json|Content-Length\
: 18|Cache-Control: max-age=3600|Quaestor-Commit: 0|Quaestor-Until: 1000003600||{'error':'absent'} = o\
k status=404 commit=0 version=- until=1000003600 date=1000000000 max_age=3600 tag=- lacks=00 taken=210
HTTP/1.1 201 Created|Date: Sun, 09 Sep 2001 01:46:40 GMT|Content-Type: application/json|Content-Length\
: 12|Cache-Control: public, max-age=7|Quaestor-Commit: 1||{'commit':1} = ok status=201 commit=1 version=\
- until=1000000000 date=1000000000 max_age=7 tag=- lacks=01 taken=179
HTTP/1.1 412 Precondition Failed|Date: Thu, 01 Jan 1970 00:00:00 GMT|Content-Type: application/json|Cont\
et-Length: 37|Cache-Control: no-store||{'error':'precondition','found':null} = refused bad_reply 0
HTTP/1.1 201 Created|Quaestor-Until: x|Content-Type: application/json|Content-Length: 12|Cache-Control\
: no-store|Quaestor-Commit: 1||{'commit':1} = refused bad_reply 38
HTTP/1.1 404 Not Found|Date: Sun, 09 Sep 2001 01:46:40 GMT|Content-Type: application/json|Cache-Control\
: max-age=3600|Quaestor-Commit: 0|Quaestor-Until: 1000003600||{'error':'absent'} = refused bad_reply 0
HTTP/1.1 201 Created|Date: Thu, 01 Jan 1970 00:01:40 GM%0aContent-Type: application/json|Content-Length\
: 12|Cache-Control: no-st|or'e|Quaestor-Commit: 1||{'commit':1}%95}} = refused bad_reply 0
HTTP/1.1 201 Created|Date: Sun, 09 Sep 2001 01:46:40 GMT|Content-Length: 12|Cache-Control: no-store|Quae\
stor-Commit: 1|| = refused truncated
HTTP/1.1 404 Not Found|Date: Sun, 09 Sep 2001 01:46:40 GMT|Content-Type: application/json|Content-Length\
: 18|Cache-Control: max-age=3600|Quaestor-Commit: 0|Quaestor-Until: 1000003600||{'error':'absent'} = o\
k status=404 commit=0 version=- until=1000003600 date=1000000000 max_age=3600 tag=- lacks=00 taken=210
HTTP/1.1 200 OK|Date: Thu, 01 Jan 1970 00:00:00 GMT|Content-Type: application/json|Content-Length: 2|ETa\
g: '1'|Cache-Control: max-age=3600|Quaestor-Commit: 1|Quaestor-Until: 3600||[] = ok status=200 commit=\
1 version=- until=3600 date=0 max_age=3600 tag=1 lacks=00 taken=191
Content-Length: x|Date: Thu, 01 Jan 1970 00:00:00 GMT|Content-Type: application/json|Content-Length: 12|\
Cache-Control: no-store|Quaestor-Commit: 1||{'commit':1} = refused bad_reply 0
HTTP/1.1 200 OK|Date: Sun, 09 Sep 2001 01:46:40 GMT|Content-Type: application/json|Content-Length: 2|ETa\
g: '0'|Cache-Control: max-age=3600|Quaestor-Commit: 0|Quaestor-Until: 1000003600|Connection: close||[\
] = ok status=200 commit=0 version=- until=1000003600 date=1000000000 max_age=3600 tag=0 lacks=00 taken=\
216
HTTP/1.1 200 OK|Date: Thu, 01 Jan 1970 00:01:40 GMT|Content-Type: application/json|Content-Length: 11|Ca\
che-Control: no-store||{'front':0} = ok status=200 commit=0 version=- until=100 date=100 max_age=- tag=\
- lacks=11 taken=144
HTTP/1.1 200 OK|Date: Sun, 09 Sep 2001 01:46:40  = refused truncated
HTTP/1.1 200 OK|Date: Thu, 01 Jan 1970 00:01:40 GMT|Content-Type: application/json|Content-Length: 39|Vi\
a: x|Cache-Control: no-store||{'from':2,'front':0,'keys':[],'last':0} = ok status=200 commit=0 version=\
- until=100 date=100 max_age=- tag=- lacks=11 taken=180
%0a|HTTP/1.1 200 OK|Date: Sun, 09 Sep 2001 01:46:40 GMT|Date: x|Content-Length: 12|Cache-Control: no-sto\
re|Quaestor-Commit: 1||{'commit':1} = refused bad_reply 63
Date: Thu, 01 Jan 1970 00:00:00 GMT|Content-Type: application/json|Content-Length: 12|Cache-Control: no-\
store|Quaestor-Commit: 2||{'commit':2} = refused bad_reply 0
HTTP/1.1 200 OK|Date: Sun, 09 Sep 2001 01:46:40 GMT|Content-Type: application/json|Content-Length: 11|Ca\
che-Control: no-store||{'front':0} = ok status=200 commit=0 version=- until=1000000000 date=1000000000 m\
ax_age=- tag=- lacks=11 taken=144";

/// The lines.
fn lines() -> &'static str {
    LINES
}

/// A hexadecimal digit.
fn digit(byte: u8) -> Result<u8, Fail>
    ensures { IfOk result (λ digit. digit < 16) }
{
    match byte {
        b'0'..=b'9' => Ok(byte - b'0'),
        b'a'..=b'f' => Ok(byte - b'a' + 10),
        _ => Err(Fail::from("no hexadecimal digit")),
    }
}

/// The byte of two hexadecimal digits.
fn byte_of(high: u8, low: u8) -> Result<u8, Fail> {
    Ok(digit(high)? * 16 + digit(low)?)
}

/// How often the next byte stands, and the text behind that number.
fn times(text: &[u8]) -> Result<(usize, &[u8]), Fail> {
    let mut rest = text;
    let mut count: usize = 0;
    for _ in 0..text.len() {
        let [first, others @ ..] = rest else {
            break;
        };
        rest = others;
        if *first == b':' {
            return Ok((count, rest));
        }
        count = count
            .wrapping_mul(10)
            .wrapping_add(usize::from(first.wrapping_sub(b'0')));
    }
    Err(Fail::from("a count without an end"))
}

/// The next byte, whether LF stands behind it, and the text behind that.
fn piece(text: &[u8]) -> Result<(u8, bool, &[u8]), Fail> {
    match text {
        [b'|', others @ ..] => Ok((b'\r', true, others)),
        [b'\'', others @ ..] => Ok((b'"', false, others)),
        [b'%', high, low, others @ ..] => Ok((byte_of(*high, *low)?, false, others)),
        [first, others @ ..] => Ok((*first, false, others)),
        [] => Err(Fail::from("a count without a byte")),
    }
}

/// Puts a byte as often as is asked.
fn put_times(bytes: &mut Vec<u8>, count: usize, byte: u8, is_line_end: bool) -> Result<(), Fail> {
    for _ in 0..count {
        bytes.push(byte)?;
        if is_line_end {
            bytes.push(b'\n')?;
        }
    }
    Ok(())
}

/// The bytes of a line.
fn bytes_of(alloc: Global, text: &[u8]) -> Result<Vec<u8>, Fail> {
    let mut bytes = Vec::new(alloc);
    let mut rest = text;
    for _ in 0..text.len() {
        if rest.is_empty() {
            break;
        }
        let (count, counted) = if rest.starts_with(b"^") {
            times(rest.get(1..).unwrap_or(rest))?
        } else {
            (1, rest)
        };
        let (byte, is_line_end, behind) = piece(counted)?;
        put_times(&mut bytes, count, byte, is_line_end)?;
        rest = behind;
    }
    Ok(bytes)
}

/// A number that may be absent.
fn number_text(alloc: Global, number: Option<u64>) -> Result<String, Fail> {
    match number {
        Some(number) => Ok(format!(in alloc; "{number}")?),
        None => Ok(format!(in alloc; "-")?),
    }
}

/// What a reply is read as.
fn reply_text(alloc: Global, reply: &Reply, lacks: Lacks, taken: usize) -> Result<String, Fail> {
    let version = number_text(alloc, reply.version)?;
    let max_age = number_text(alloc, reply.max_age.map(u64::from))?;
    let tag = number_text(alloc, reply.tag)?;
    Ok(format!(in alloc;
        "ok status={} commit={} version={version} until={} date={} max_age={max_age} tag={tag} lacks={}{} taken={taken}",
        reply.status,
        reply.commit,
        reply.until,
        reply.date.seconds(),
        u8::from(lacks.commit),
        u8::from(lacks.until)
    )?)
}

/// The number of bytes that a source has left.
fn left_in<S: Source>(source: &mut S) -> Result<usize, Fail> {
    let mut buffer = [0u8; 64];
    let mut left: usize = 0;
    for _ in 0..1_000 {
        match source.take(&mut buffer) {
            Ok(0) => return Ok(left),
            Ok(count) => left = left.wrapping_add(count),
            Err(Failed) => break,
        }
    }
    Err(Fail::from("a source without an end"))
}

/// What the bytes of a source are read as, and whether the body is the last of those that were taken.
fn answer_to<S: Source>(
    alloc: Global,
    source: &mut S,
    bytes: &[u8],
) -> Result<(String, bool), Fail> {
    let answer = read_reply(alloc, source);
    let taken = bytes.len().saturating_sub(left_in(source)?);
    match answer {
        Ok((reply, lacks)) => {
            let text = reply_text(alloc, &reply, lacks, taken)?;
            let read = bytes.get(..taken).unwrap_or(bytes);
            Ok((text, read.ends_with(reply.body.as_slice())))
        }
        Err(WireRefusal::BadReply { place }) => {
            Ok((format!(in alloc; "refused bad_reply {place}")?, true))
        }
        Err(WireRefusal::Truncated { taken }) => {
            let all = taken == bytes.len();
            Ok((format!(in alloc; "refused truncated")?, all))
        }
        Err(_) => Err(Fail::from("no answer")),
    }
}

#[test]
fn replies_are_read_as_in_the_vectors(rt: HostRuntime) -> Result<(), Fail> {
    let alloc = rt.alloc();
    for line in lines().lines() {
        let Some((text, wanted)) = line.split_once(" = ") else {
            return Err(Fail::from("a line without an answer"));
        };
        let bytes = bytes_of(alloc, text.as_bytes())?;
        let mut plain = PlainSource::of(bytes.clone()?);
        let mut buffered = BufferedSource::new(alloc, PlainSource::of(bytes.clone()?))?;
        let (answer, is_body) = answer_to(alloc, &mut plain, &bytes)?;
        assert_eq!(rt; answer.as_str(), wanted, "at {text}");
        assert!(rt; is_body, "the body at {text}");
        let (answer, is_body) = answer_to(alloc, &mut buffered, &bytes)?;
        assert_eq!(rt; answer.as_str(), wanted, "in a buffer, at {text}");
        assert!(rt; is_body, "the body in a buffer, at {text}");
    }
    assert_eq!(rt; lines().lines().count(), 151);
    Ok(())
}
