//! That the calls succeed with ample memory, and what buffers with little room hold then.

use crate::returned::Returned;
use crate::{
    gltf_c_check, gltf_c_check_by, gltf_c_check_json, gltf_c_findings, gltf_c_rewrite,
    gltf_c_version,
};
use std::alloc::Global;

const CLEAN: &[u8] = b"{\"asset\": {\"version\": \"2.0\"}, \"nodes\": []}\n";

const REWRITTEN: &str = "{\"asset\":{\"version\":\"2.0\"}}";

const LIGHTS: &[u8] =
    b"{\"asset\":{\"version\":\"2.0\"},\"extensionsRequired\":[\"KHR_lights_punctual\"]}";

const UNSUPPORTED: &str =
    "extensionsRequired[0] = \"KHR_lights_punctual\": Unsupported extension\n";

const INVALID: &[u8] =
    b"{\"asset\":{\"version\":\"2.0\"},\"accessors\":[{\"count\":1,\"componentType\":5126,\"type\":\"VEC5\"}]}";

const FAULTS: &str = "accessors[0].type: Invalid value\naccessors[0].bufferView: Missing data\n";

const LINES: &str = "\
    {\"code\":\"invalid\",\"file\":\"a.gltf\",\"kind\":\"report\",\"message\":\"Invalid value\",\
    \"path\":\"accessors[0].type\",\"pointer\":\"/accessors/0/type\"}\n\
    {\"code\":\"missing\",\"file\":\"a.gltf\",\"kind\":\"report\",\"message\":\"Missing data\",\
    \"path\":\"accessors[0].bufferView\",\"pointer\":\"/accessors/0/bufferView\"}\n";

/// A camera that looks the wrong way.
const CAMERA: &[u8] = b"{\"asset\":{\"version\":\"2.0\"},\"cameras\":[{\"type\":\"perspective\",\
    \"perspective\":{\"yfov\":-1,\"znear\":1}}]}";

const FINDINGS: &str = "\
    {\"code\":\"VALUE_NOT_IN_RANGE\",\"column\":83,\"file\":\"a.gltf\",\
    \"kind\":\"finding\",\"line\":1,\"message\":\"a number is out of its range\",\
    \"offset\":null,\"pointer\":\"/cameras/0/perspective/yfov\",\"section\":\"5\",\
    \"severity\":\"error\"}\n\
    {\"code\":\"UNUSED_OBJECT\",\"column\":39,\"file\":\"a.gltf\",\
    \"kind\":\"finding\",\"line\":1,\"message\":\"nothing refers to the object\",\
    \"offset\":null,\"pointer\":\"/cameras/0\",\"section\":\"5\",\
    \"severity\":\"information\"}\n";

/// A `.glb` file of 48 bytes: the header, and a JSON chunk with 28 bytes of data.
const GLB: &[u8] = b"glTF\x02\0\0\0\x30\0\0\0\x1c\0\0\0JSON{\"asset\":{\"version\":\"2.0\"}} ";

/// The same without its last 4 bytes.
const CUT: &[u8] = b"glTF\x02\0\0\0\x30\0\0\0\x1c\0\0\0JSON{\"asset\":{\"version\":\"2.0";

const ROOM: usize = 500;

/// Whether a call returned a status and the length of a text, and wrote the text to the front of a
/// buffer of points, as far as there is room.
fn is_put(returned: Returned, status: u8, buffer: &[u8], text: &str) -> bool {
    let bytes = text.as_bytes();
    let count = bytes.len().min(buffer.len());
    returned.status == status
        && returned.needed == bytes.len()
        && buffer[..count] == bytes[..count]
        && buffer[count..].iter().all(|byte| *byte == b'.')
}

fn checks_as(alloc: Global, document: &[u8], room: usize, status: u8, text: &str) -> bool {
    let mut buffer = [b'.'; ROOM];
    let Some(output) = buffer.get_mut(..room) else {
        return false;
    };
    let returned = gltf_c_check(alloc, document, output);
    is_put(returned, status, output, text)
}

fn checks_by(alloc: Global, names: &[u8], status: u8, text: &str) -> bool {
    let mut buffer = [b'.'; ROOM];
    let returned = gltf_c_check_by(alloc, LIGHTS, names, false, &mut buffer);
    is_put(returned, status, &buffer, text)
}

fn lists_as(
    alloc: Global,
    document: &[u8],
    file: &[u8],
    room: usize,
    status: u8,
    text: &str,
) -> bool {
    let mut buffer = [b'.'; ROOM];
    let Some(output) = buffer.get_mut(..room) else {
        return false;
    };
    let returned = gltf_c_check_json(alloc, document, file, output);
    is_put(returned, status, output, text)
}

fn finds_in(
    alloc: Global,
    document: &[u8],
    file: &[u8],
    room: usize,
    status: u8,
    text: &str,
) -> bool {
    let mut buffer = [b'.'; ROOM];
    let Some(output) = buffer.get_mut(..room) else {
        return false;
    };
    let returned = gltf_c_findings(alloc, document, file, output);
    is_put(returned, status, output, text)
}

fn rewrites_as(alloc: Global, document: &[u8], room: usize, status: u8, text: &str) -> bool {
    let mut buffer = [b'.'; ROOM];
    let Some(output) = buffer.get_mut(..room) else {
        return false;
    };
    let returned = gltf_c_rewrite(alloc, document, output);
    is_put(returned, status, output, text)
}

#[test]
fn documents_are_checked(rt: HostRuntime) {
    let alloc = rt.alloc();
    assert!(rt; checks_as(alloc, CLEAN, ROOM, 0, "clean\n"));
    assert!(rt; checks_as(alloc, LIGHTS, ROOM, 0, "clean\n"));
    assert!(rt; checks_as(alloc, INVALID, ROOM, 1, FAULTS));
    assert!(rt; checks_as(alloc, b"", ROOM, 2, "refused: not JSON\n"));
    assert!(rt; checks_as(alloc, b"{}", ROOM, 3, "refused: not a glTF document\n"));
}

#[test]
fn names_decide(rt: HostRuntime) {
    let alloc = rt.alloc();
    assert!(rt; checks_by(alloc, b"", 1, UNSUPPORTED));
    assert!(rt;
        checks_by(
            alloc,
            b"KHR_materials_ior\nKHR_lights_punctual",
            0,
            "clean\n"
        )
    );
    assert!(rt; checks_by(alloc, b"KHR_lights_punctual\n", 0, "clean\n"));
    assert!(rt;
        checks_by(
            alloc,
            b"KHR_lights_punctual KHR_materials_ior",
            1,
            UNSUPPORTED
        )
    );
    assert!(rt; checks_by(alloc, b"\xff", 6, ""));
}

#[test]
fn reports_are_listed_as_json(rt: HostRuntime) {
    let alloc = rt.alloc();
    assert!(rt; lists_as(alloc, CLEAN, b"a.gltf", ROOM, 0, ""));
    assert!(rt; lists_as(alloc, LIGHTS, b"a.gltf", ROOM, 0, ""));
    assert!(rt; lists_as(alloc, b"", b"a.gltf", ROOM, 2, ""));
    assert!(rt; lists_as(alloc, b"{}", b"a.gltf", ROOM, 3, ""));
    assert!(rt; lists_as(alloc, INVALID, b"\xff", ROOM, 6, ""));
    for room in [0, 1, LINES.len() - 1, LINES.len(), ROOM] {
        assert!(rt;
            lists_as(alloc, INVALID, b"a.gltf", room, 1, LINES),
            "{room}"
        );
    }
}

#[test]
fn findings_are_listed_as_json(rt: HostRuntime) {
    let alloc = rt.alloc();
    assert!(rt;
        finds_in(
            alloc,
            b"{\"asset\":{\"version\":\"2.0\"}}",
            b"a",
            ROOM,
            0,
            ""
        )
    );
    assert!(rt; finds_in(alloc, GLB, b"a", ROOM, 0, ""));
    assert!(rt; finds_in(alloc, b"", b"a", ROOM, 2, ""));
    assert!(rt; finds_in(alloc, CAMERA, b"\xff", ROOM, 6, ""));
    for room in [0, 1, FINDINGS.len() - 1, FINDINGS.len(), ROOM] {
        assert!(rt;
            finds_in(alloc, CAMERA, b"a.gltf", room, 1, FINDINGS),
            "{room}"
        );
    }
}

#[test]
fn containers_are_checked(rt: HostRuntime) {
    let alloc = rt.alloc();
    assert!(rt; checks_as(alloc, GLB, ROOM, 0, "clean\n"));
    assert!(rt; checks_as(alloc, CUT, ROOM, 7, "refused: not binary glTF\n"));
    assert!(rt; lists_as(alloc, GLB, b"", ROOM, 0, ""));
    assert!(rt; lists_as(alloc, CUT, b"", ROOM, 7, ""));
    assert!(rt; rewrites_as(alloc, GLB, ROOM, 2, ""));
}

#[test]
fn documents_are_written_anew(rt: HostRuntime) {
    let alloc = rt.alloc();
    assert!(rt; rewrites_as(alloc, CLEAN, ROOM, 0, REWRITTEN));
    assert!(rt; rewrites_as(alloc, b"", ROOM, 2, ""));
    assert!(rt; rewrites_as(alloc, b"{}", ROOM, 3, ""));
    assert!(rt; rewrites_as(alloc, INVALID, ROOM, 5, ""));
}

#[test]
fn little_room_takes_the_first_bytes(rt: HostRuntime) {
    let alloc = rt.alloc();
    for room in 0..7 {
        assert!(rt; checks_as(alloc, CLEAN, room, 0, "clean\n"), "{room}");
    }
    for room in [0, 1, REWRITTEN.len() - 1, REWRITTEN.len()] {
        assert!(rt; rewrites_as(alloc, CLEAN, room, 0, REWRITTEN), "{room}");
    }
}

#[test]
fn the_version_is_put_out(rt: HostRuntime) {
    let mut buffer = [b'.'; ROOM];
    let returned = gltf_c_version(&mut buffer);
    assert!(rt; is_put(returned, 0, &buffer, "1.4.1+1"));
}
