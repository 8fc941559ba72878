//! Texts, each behind the word for what it is told to be: by hand, after the formats. `other` is a text in another layout.

/// Trees.
pub const TREES: &str =
    r#"same {"nodes":[{"content":["ba7816bf8f01cfea414140de5dae2223b00361a396177a9cb410ff61f20015ad"],"name":"x","size":3,"type":"file"}]}
same {"nodes":[{"name":"d","subtree":"ba7816bf8f01cfea414140de5dae2223b00361a396177a9cb410ff61f20015ad","type":"dir"}]}
same {"nodes":[]}
other  { "other" : 1 , "nodes" : [ ] }
other {"nodes":0,"nodes":[]}
other {"nodes":[{"type":"file","size":0,"name":"\u0061","content":[],"subtree":0}]}
other {"nodes":[{"content":0,"name":"d","size":"x","subtree":"ba7816bf8f01cfea414140de5dae2223b00361a396177a9cb410ff61f20015ad","type":"dir"}]}
same {"nodes":[{"content":[],"name":"x","size":281474976710655,"type":"file"}]}
same {"nodes":[{"content":[],"name":"a","size":0,"type":"file"},{"content":[],"name":"b","size":0,"type":"file"}]}
same {"nodes":[{"content":[],"name":"a","size":0,"type":"file"},{"content":[],"name":"ab","size":0,"type":"file"}]}
same {"nodes":[{"content":[],"name":"B","size":0,"type":"file"},{"content":[],"name":"a","size":0,"type":"file"}]}
same {"nodes":[{"content":[],"name":"ab","size":0,"type":"file"},{"content":[],"name":"ac","size":0,"type":"file"}]}
same {"nodes":[{"content":[],"name":"z","size":0,"type":"file"},{"content":[],"name":"é","size":0,"type":"file"}]}
order {"nodes":[{"content":[],"name":"a","size":0,"type":"file"},{"content":[],"name":"a","size":0,"type":"file"}]}
order {"nodes":[{"content":[],"name":"b","size":0,"type":"file"},{"content":[],"name":"a","size":0,"type":"file"}]}
order {"nodes":[{"content":[],"name":"ab","size":0,"type":"file"},{"content":[],"name":"a","size":0,"type":"file"}]}
name {"nodes":[{"content":[],"name":"b","size":0,"type":"file"},{"content":[],"name":".","size":0,"type":"file"}]}
name {"nodes":[{"content":[],"name":".","size":0,"type":"file"},{"content":[],"name":"b","size":0,"type":"file"}]}
name {"nodes":[{"content":[],"name":"","size":0,"type":"file"},{"content":[],"name":"b","size":0,"type":"file"}]}
name {"nodes":[{"content":[],"name":"a/b","size":0,"type":"file"},{"content":[],"name":"b","size":0,"type":"file"}]}
name {"nodes":[{"content":[],"name":"\u0000","size":0,"type":"file"},{"content":[],"name":"b","size":0,"type":"file"}]}
json {
json {"nodes":[]} x
shape []
shape {}
shape {"nodes":0}
shape {"nodes":[0]}
shape {"nodes":[0,{"name":".."}]}
name {"nodes":[{"content":[],"name":"..","size":0,"type":"file"}]}
name {"nodes":[{"content":[],"name":"..","size":0,"type":"file"},0]}
shape {"nodes":[{"content":[],"name":"x","size":0,"type":"link"}]}
shape {"nodes":[{"content":[],"name":"x","size":0,"type":0}]}
shape {"nodes":[{"content":[],"name":1,"size":0,"type":"file"}]}
shape {"nodes":[{"content":["x"],"name":"x","size":0,"type":"file"}]}
shape {"nodes":[{"content":0,"name":"x","size":0,"type":"file"}]}
shape {"nodes":[{"content":[],"name":"..","size":0,"type":"dir"}]}
shape {"nodes":[{"content":[],"name":"x","size":"0","type":"file"}]}
shape {"nodes":[{"content":[],"name":"x","size":281474976710656,"type":"file"}]}
shape {"nodes":[{"content":[],"name":"x","size":18446744073709551616,"type":"file"}]}
shape {"nodes":[{"content":[],"name":"x","size":3.0,"type":"file"}]}
shape {"nodes":[{"content":[],"name":"x","size":1e2,"type":"file"}]}
shape {"nodes":[{"content":[],"name":"x","size":-0,"type":"file"}]}
shape {"nodes":[{"content":[],"name":"x","size":-1,"type":"file"}]}
shape {"nodes":[{"name":"x","subtree":"ba7816bf8f01cfea414140de5dae2223b00361a396177a9cb410ff61f20015aD","type":"dir"}]}
shape {"nodes":[{"name":"x","subtree":"ba7816bf8f01cfea414140de5dae2223b00361a396177a9cb410ff61f20015ag","type":"dir"}]}
shape {"nodes":[{"name":"x","subtree":"ba7816bf8f01cfea414140de5dae2223b00361a396177a9cb410ff61f20015a","type":"dir"}]}
same {"nodes":[{"content":[],"name":"aaaaaaaaaaaaaaaaaaaaaaaaaaaaaaaaaaaaaaaaaaaaaaaaaaaaaaaaaaaaaaaaaaaaaaaaaaaaaaaaaaaaaaaaaaaaaaaaaaaaaaaaaaaaaaaaaaaaaaaaaaaaaaaaaaaaaaaaaaaaaaaaaaaaaaaaaaaaaaaaaaaaaaaaaaaaaaaaaaaaaaaaaaaaaaaaaaaaaaaaaaaaaaaaaaaaaaaaaaaaaaaaaaaaaaaaaaaaaaaaaaaaaaaaaaaaaaa","size":0,"type":"file"}]}
name {"nodes":[{"content":[],"name":"aaaaaaaaaaaaaaaaaaaaaaaaaaaaaaaaaaaaaaaaaaaaaaaaaaaaaaaaaaaaaaaaaaaaaaaaaaaaaaaaaaaaaaaaaaaaaaaaaaaaaaaaaaaaaaaaaaaaaaaaaaaaaaaaaaaaaaaaaaaaaaaaaaaaaaaaaaaaaaaaaaaaaaaaaaaaaaaaaaaaaaaaaaaaaaaaaaaaaaaaaaaaaaaaaaaaaaaaaaaaaaaaaaaaaaaaaaaaaaaaaaaaaaaaaaaaaaaa","size":0,"type":"file"}]}
same {"nodes":[{"content":[],"name":"...","size":0,"type":"file"}]}
same {"nodes":[{"content":[],"name":".a","size":0,"type":"file"}]}
other {"next":"BA78","nodes":[]}"#;

/// Parts of directories.
pub const PARTS: &str =
    r#"same {"next":"ba7816bf8f01cfea414140de5dae2223b00361a396177a9cb410ff61f20015ad","nodes":[{"content":[],"name":"x","size":0,"type":"file"}]}
same {"nodes":[]}
shape {"next":"BA78","nodes":[]}
shape {"next":null,"nodes":[]}
name {"next":5,"nodes":[{"content":[],"name":"..","size":0,"type":"file"}]}"#;

/// Snapshots.
pub const SNAPSHOTS: &str =
    r#"same {"host":"a","time":5,"token":1,"tree":"e3b0c44298fc1c149afbf4c8996fb92427ae41e4649b934ca495991b7852b855","version":1}
same {"host":"a","time":5,"token":1,"tree":"e3b0c44298fc1c149afbf4c8996fb92427ae41e4649b934ca495991b7852b855","version":2}
same {"host":"a","time":18446744073709551615,"token":1,"tree":"e3b0c44298fc1c149afbf4c8996fb92427ae41e4649b934ca495991b7852b855","version":1}
shape {"host":"a","time":18446744073709551616,"token":1,"tree":"e3b0c44298fc1c149afbf4c8996fb92427ae41e4649b934ca495991b7852b855","version":1}
shape {"host":"a","time":5.0,"token":1,"tree":"e3b0c44298fc1c149afbf4c8996fb92427ae41e4649b934ca495991b7852b855","version":1}
shape {"host":"","time":5,"token":1,"tree":"e3b0c44298fc1c149afbf4c8996fb92427ae41e4649b934ca495991b7852b855","version":1}
shape {"host":0,"time":5,"token":1,"tree":"e3b0c44298fc1c149afbf4c8996fb92427ae41e4649b934ca495991b7852b855","version":1}
shape {"host":"a","time":5,"token":1,"tree":"e3","version":1}
shape {"host":"a","time":5,"token":1,"tree":"e3b0c44298fc1c149afbf4c8996fb92427ae41e4649b934ca495991b7852b855","version":"1"}
shape {"host":0,"time":5,"token":1,"tree":"e3b0c44298fc1c149afbf4c8996fb92427ae41e4649b934ca495991b7852b855","version":-1}
same {"host":"aaaaaaaaaaaaaaaaaaaaaaaaaaaaaaaaaaaaaaaaaaaaaaaaaaaaaaaaaaaaaaaaaaaaaaaaaaaaaaaaaaaaaaaaaaaaaaaaaaaaaaaaaaaaaaaaaaaaaaaaaaaaaaaaaaaaaaaaaaaaaaaaaaaaaaaaaaaaaaaaaaaaaaaaaaaaaaaaaaaaaaaaaaaaaaaaaaaaaaaaaaaaaaaaaaaaaaaaaaaaaaaaaaaaaaaaaaaaaaaaaaaaaaaaaaaaaaa","time":5,"token":1,"tree":"e3b0c44298fc1c149afbf4c8996fb92427ae41e4649b934ca495991b7852b855","version":1}
shape {"host":"aaaaaaaaaaaaaaaaaaaaaaaaaaaaaaaaaaaaaaaaaaaaaaaaaaaaaaaaaaaaaaaaaaaaaaaaaaaaaaaaaaaaaaaaaaaaaaaaaaaaaaaaaaaaaaaaaaaaaaaaaaaaaaaaaaaaaaaaaaaaaaaaaaaaaaaaaaaaaaaaaaaaaaaaaaaaaaaaaaaaaaaaaaaaaaaaaaaaaaaaaaaaaaaaaaaaaaaaaaaaaaaaaaaaaaaaaaaaaaaaaaaaaaaaaaaaaaaa","time":5,"token":1,"tree":"e3b0c44298fc1c149afbf4c8996fb92427ae41e4649b934ca495991b7852b855","version":1}
version {"host":"a","time":5,"token":1,"tree":"e3b0c44298fc1c149afbf4c8996fb92427ae41e4649b934ca495991b7852b855","version":3}
version {"host":0,"time":0.5,"token":1,"tree":0,"version":3}
version {"host":"a","time":5,"token":1,"tree":"e3b0c44298fc1c149afbf4c8996fb92427ae41e4649b934ca495991b7852b855","version":0}
json {"host":a,"time":5,"token":1,"tree":"e3b0c44298fc1c149afbf4c8996fb92427ae41e4649b934ca495991b7852b855","version":3}
json {
version {"version":3}
shape {"version":1}"#;

/// Configs.
pub const CONFIGS: &str =
    r#"same {"chunk_bits":6,"chunk_max":128,"chunk_min":64,"id":"00000000000000000000000000000000","pack_target":1024,"version":1}
same {"chunk_bits":6,"chunk_max":128,"chunk_min":64,"id":"00000000000000000000000000000000","pack_target":1024,"version":2}
same {"chunk_bits":6,"chunk_max":128,"chunk_min":64,"id":"00112233445566778899aabbccddeeff","pack_target":16777216,"version":1}
params {"chunk_bits":6,"chunk_max":128,"chunk_min":63,"id":"00112233445566778899aabbccddeeff","pack_target":1024,"version":1}
params {"chunk_bits":6,"chunk_max":128,"chunk_min":129,"id":"00112233445566778899aabbccddeeff","pack_target":1024,"version":1}
params {"chunk_bits":6,"chunk_max":128,"chunk_min":64,"id":"00112233445566778899aabbccddeeff","pack_target":1023,"version":1}
params {"chunk_bits":6,"chunk_max":128,"chunk_min":64,"id":"00112233445566778899aabbccddeeff","pack_target":16777217,"version":1}
shape {"chunk_bits":6,"chunk_max":128,"chunk_min":63,"id":"00112233445566778899aabbccddeeff","pack_target":-1,"version":1}
shape {"chunk_bits":6,"chunk_max":128,"chunk_min":64,"id":"00112233445566778899AABBCCDDEEFF","pack_target":1024,"version":1}
shape {"chunk_bits":6,"chunk_max":128,"chunk_min":64,"id":"00112233445566778899aabbccddeef","pack_target":1024,"version":1}
shape {"chunk_bits":6,"chunk_max":128,"chunk_min":null,"id":"00112233445566778899aabbccddeeff","pack_target":1024,"version":1}
shape {"chunk_bits":6,"chunk_max":128,"chunk_min":null,"id":"00112233445566778899aabbccddeeff","pack_target":1024,"version":null}
version {"chunk_bits":6,"chunk_max":128,"chunk_min":null,"id":"00112233445566778899aabbccddeeff","pack_target":1024,"version":0}
version {"chunk_bits":6,"chunk_max":128,"chunk_min":null,"id":"00112233445566778899aabbccddeeff","pack_target":1024,"version":3}
shape {"chunk_bits":6,"chunk_max":128,"chunk_min":null,"id":"00112233445566778899aabbccddeeff","pack_target":1024,"version":2}
json {"chunk_bits":6,"chunk_max":128,"chunk_min":x,"id":"00112233445566778899aabbccddeeff","pack_target":1024,"version":0}
json {
version {"version":3}
shape {"version":1}"#;

/// Indexes.
pub const INDEXES: &str =
    r#"same {"packs":[{"blobs":[{"id":"ba7816bf8f01cfea414140de5dae2223b00361a396177a9cb410ff61f20015ad","length":3,"offset":0,"type":"data"}],"id":"e3b0c44298fc1c149afbf4c8996fb92427ae41e4649b934ca495991b7852b855"}],"supersedes":[]}
same {"packs":[],"supersedes":[]}
other {"packs":[]}
other  { "supersedes" : [ ] , "more" : 1.5 , "packs" : [ ] }
other {"packs":0,"packs":[]}
other {"packs":[],"supersedes":["ba7816bf8f01cfea414140de5dae2223b00361a396177a9cb410ff61f20015ad"]}
same {"packs":[{"blobs":[{"id":"ba7816bf8f01cfea414140de5dae2223b00361a396177a9cb410ff61f20015ad","length":1,"offset":25165822,"type":"tree"}],"id":"e3b0c44298fc1c149afbf4c8996fb92427ae41e4649b934ca495991b7852b855"}],"supersedes":[]}
range {"packs":[{"blobs":[{"id":"ba7816bf8f01cfea414140de5dae2223b00361a396177a9cb410ff61f20015ad","length":1,"offset":25165823,"type":"tree"}],"id":"e3b0c44298fc1c149afbf4c8996fb92427ae41e4649b934ca495991b7852b855"}],"supersedes":[]}
same {"packs":[{"blobs":[{"id":"ba7816bf8f01cfea414140de5dae2223b00361a396177a9cb410ff61f20015ad","length":8388608,"offset":16777215,"type":"tree"}],"id":"e3b0c44298fc1c149afbf4c8996fb92427ae41e4649b934ca495991b7852b855"}],"supersedes":[]}
range {"packs":[{"blobs":[{"id":"ba7816bf8f01cfea414140de5dae2223b00361a396177a9cb410ff61f20015ad","length":8388608,"offset":16777216,"type":"tree"}],"id":"e3b0c44298fc1c149afbf4c8996fb92427ae41e4649b934ca495991b7852b855"}],"supersedes":[]}
range {"packs":[{"blobs":[{"id":"ba7816bf8f01cfea414140de5dae2223b00361a396177a9cb410ff61f20015ad","length":8388609,"offset":0,"type":"tree"}],"id":"e3b0c44298fc1c149afbf4c8996fb92427ae41e4649b934ca495991b7852b855"}],"supersedes":[]}
range {"packs":[{"blobs":[{"id":"ba7816bf8f01cfea414140de5dae2223b00361a396177a9cb410ff61f20015ad","length":0,"offset":0,"type":"tree"}],"id":"e3b0c44298fc1c149afbf4c8996fb92427ae41e4649b934ca495991b7852b855"}],"supersedes":[]}
range {"packs":[{"blobs":[{"id":"ba7816bf8f01cfea414140de5dae2223b00361a396177a9cb410ff61f20015ad","length":1,"offset":18446744073709551615,"type":"tree"}],"id":"e3b0c44298fc1c149afbf4c8996fb92427ae41e4649b934ca495991b7852b855"}],"supersedes":[]}
range {"packs":[{"blobs":[{"id":"ba7816bf8f01cfea414140de5dae2223b00361a396177a9cb410ff61f20015ad","length":18446744073709551615,"offset":1,"type":"tree"}],"id":"e3b0c44298fc1c149afbf4c8996fb92427ae41e4649b934ca495991b7852b855"}],"supersedes":[]}
shape {"packs":[{"blobs":[{"id":"ba7816bf8f01cfea414140de5dae2223b00361a396177a9cb410ff61f20015ad","length":18446744073709551616,"offset":1,"type":"tree"}],"id":"e3b0c44298fc1c149afbf4c8996fb92427ae41e4649b934ca495991b7852b855"}],"supersedes":[]}
shape {"packs":[{"blobs":[{"id":"ba7816bf8f01cfea414140de5dae2223b00361a396177a9cb410ff61f20015ad","length":1,"offset":3.0,"type":"tree"}],"id":"e3b0c44298fc1c149afbf4c8996fb92427ae41e4649b934ca495991b7852b855"}],"supersedes":[]}
shape {"packs":[{"blobs":[{"id":"ba7816bf8f01cfea414140de5dae2223b00361a396177a9cb410ff61f20015ad","length":1e2,"offset":1,"type":"tree"}],"id":"e3b0c44298fc1c149afbf4c8996fb92427ae41e4649b934ca495991b7852b855"}],"supersedes":[]}
shape {"packs":[{"blobs":[{"id":"ba7816bf8f01cfea414140de5dae2223b00361a396177a9cb410ff61f20015ad","length":1,"offset":-0,"type":"tree"}],"id":"e3b0c44298fc1c149afbf4c8996fb92427ae41e4649b934ca495991b7852b855"}],"supersedes":[]}
shape {"packs":[{"blobs":[{"id":"ba7816bf8f01cfea414140de5dae2223b00361a396177a9cb410ff61f20015ad","length":1,"offset":"0","type":"tree"}],"id":"e3b0c44298fc1c149afbf4c8996fb92427ae41e4649b934ca495991b7852b855"}],"supersedes":[]}
json {
json {"packs":[0]} x
json {"packs":[],"more":1e400}
shape []
shape {}
shape {"packs":0}
shape {"packs":[0]}
shape {"packs":[{"id":"x"}]}
shape {"packs":[{"blobs":[0],"id":0}]}
name {"packs":[{"blobs":[0],"id":"x"}]}
name {"packs":[{"blobs":[],"id":"x"},0],"supersedes":0}
shape {"packs":[],"supersedes":0}
shape {"packs":[],"supersedes":null}
name {"packs":[],"supersedes":["x",0]}
shape {"packs":[],"supersedes":[0,"x"]}
name {"packs":[],"supersedes":["BA7816BF8F01CFEA414140DE5DAE2223B00361A396177A9CB410FF61F20015AD"]}
same {"packs":[{"blobs":[{"id":"ba7816bf8f01cfea414140de5dae2223b00361a396177a9cb410ff61f20015ad","length":1,"offset":0,"type":"data"}],"id":"e3b0c44298fc1c149afbf4c8996fb92427ae41e4649b934ca495991b7852b855"}],"supersedes":[]}
same {"packs":[{"blobs":[{"id":"ba7816bf8f01cfea414140de5dae2223b00361a396177a9cb410ff61f20015ad","length":1,"offset":0,"type":"tree"}],"id":"e3b0c44298fc1c149afbf4c8996fb92427ae41e4649b934ca495991b7852b855"}],"supersedes":[]}
shape {"packs":[{"blobs":[{"id":"ba7816bf8f01cfea414140de5dae2223b00361a396177a9cb410ff61f20015ad","length":1,"offset":0,"type":"blob"}],"id":"e3b0c44298fc1c149afbf4c8996fb92427ae41e4649b934ca495991b7852b855"}],"supersedes":[]}
shape {"packs":[{"blobs":[{"id":"ba7816bf8f01cfea414140de5dae2223b00361a396177a9cb410ff61f20015ad","length":0,"offset":0,"type":0}],"id":"e3b0c44298fc1c149afbf4c8996fb92427ae41e4649b934ca495991b7852b855"}],"supersedes":[]}
shape {"packs":[{"blobs":[{"id":0,"length":0,"offset":0,"type":"data"}],"id":"e3b0c44298fc1c149afbf4c8996fb92427ae41e4649b934ca495991b7852b855"}],"supersedes":[]}
shape {"packs":[{"blobs":[{"id":"x","length":0,"offset":0,"type":"blob"}],"id":"e3b0c44298fc1c149afbf4c8996fb92427ae41e4649b934ca495991b7852b855"}],"supersedes":[]}
name {"packs":[{"blobs":[{"id":"x","length":0,"offset":0,"type":"data"}],"id":"e3b0c44298fc1c149afbf4c8996fb92427ae41e4649b934ca495991b7852b855"}],"supersedes":[]}
range {"packs":[{"blobs":[{"id":"ba7816bf8f01cfea414140de5dae2223b00361a396177a9cb410ff61f20015ad","length":0,"offset":0,"type":"data"}],"id":"e3b0c44298fc1c149afbf4c8996fb92427ae41e4649b934ca495991b7852b855"}],"supersedes":[]}"#;
