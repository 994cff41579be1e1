// Writes the prefixes of the IP networks of an image, as filters for routers.
//
// rdap_prefixes IMAGE [FORMAT] [--all]
//
// One list for each active network, in image order; with --all for the others too. FORMAT is plain, cisco, bird, juniper or json.
// IMAGE has at most 262,144 bytes. If two lists would have the same name, a router would keep one of them: then nothing is written.
#![tactic(auto)]

mod names;
mod networks;

ghost use Rattle.std.specs.Prelude.{◌≡◌};

use entries::SoundImage;
use files::{
    MOST_NAME, argument, has_argument, image_room, part, read_whole, tell, tell_image, tell_record,
    write_out,
};
use filters::put_filter;
use formats::Format;
use image::index;
use names::clash_of;
use networks::Networks;
use registry::{AS_BLOCK, IPV6_NETWORK, MOST_IMAGE, MOST_RECORDS, Part};
use std::io;
use std::rt::{Env, Files};

// What is put before it is written out, and room for a list after it.
const CHUNK: usize = 32768;

const SPACE: usize = CHUNK + filters::ROOM;

// The lists that are put and not yet written out stand at the start of a buffer.
#[derive(Drop)]
struct Output {
    lists: [u8; SPACE],
    put: usize,
}

impl Output {
    fn new() -> Output {
        Output {
            lists: [0; SPACE],
            put: 0,
        }
    }

    fn flush(&mut self, rt: &impl Print, err: &impl Print) -> io::Result<()>
        ensures { self.new.put ≡ 0 }
    {
        let put = self.put;
        self.put = 0;
        write_out(rt, err, part(&self.lists, 0, put))
    }

    // Puts the list of a network. Where there may be no room, what was put is written out first.
    fn put_list(
        &mut self,
        rt: &impl Print,
        err: &impl Print,
        networks: Networks,
        number: u32,
    ) -> io::Result<()> {
        if CHUNK <= self.put {
            self.flush(rt, err)?;
        }
        let handle = networks.part(number, Part::Handle);
        let range = networks.part(number, Part::Range);
        let room = &mut self.lists[self.put..];
        let n = put_filter(networks.format, handle, range, room);
        self.put += n;
        Ok(())
    }
}

// Writes the lists of the networks, which are the records before a number.
fn write_lists(
    rt: &impl Print,
    err: &impl Print,
    networks: Networks,
    until: u32,
) -> io::Result<()> {
    let mut output = Output::new();
    for number in 0..until {
        if networks.is_listed(number) {
            output.put_list(rt, err, networks, number)?;
        }
    }
    output.flush(rt, err)
}

// A network, after a text.
fn tell_network(err: &impl Print, before: &[u8], networks: Networks, number: u32) {
    tell(err, before);
    tell_record(err, number, networks.part(number, Part::Handle));
}

// That two networks would have the same name.
fn tell_clash(err: &impl Print, networks: Networks, first: u32, second: u32, image_name: &[u8]) {
    let mut room = [0u8; 64];
    let n = networks.put_name(second, &mut room);
    tell(err, image_name);
    tell_network(err, b": records ", networks, first);
    tell_network(err, b" and ", networks, second);
    tell(err, b" would both be named ");
    tell(err, part(&room, 0, n));
    tell(err, b"\n");
}

// Networks have the lowest tags, IPv4 before IPv6. What kept the lists from being written is told already.
fn list_networks(rt: &impl Print, err: &impl Print, networks: Networks, image_name: &[u8]) {
    let middle = networks.image.first_from(IPV6_NETWORK);
    let until = networks.image.first_from(AS_BLOCK);
    match clash_of(networks, middle, until) {
        None => {
            let _ = write_lists(rt, err, networks, until);
        }
        Some((first, second)) => tell_clash(err, networks, first, second, image_name),
    }
}

fn list_image(rt: &impl Print, err: &impl Print, image: &[u8], asked: Asked, image_name: &[u8]) {
    let mut starts = [0u32; MOST_RECORDS];
    match index(image, &mut starts) {
        Ok(count) => {
            let sound = SoundImage {
                bytes: image,
                starts: &starts,
                count,
            };
            let networks = Networks {
                image: sound,
                format: asked.format,
                all: asked.all,
            };
            list_networks(rt, err, networks, image_name);
        }
        Err(flaw) => tell_image(err, image_name, flaw),
    }
}

fn list_file(rt: &(impl Files + Print), err: &impl Print, image_name: &[u8], asked: Asked) {
    let mut image = image_room();
    let n = read_whole(rt, err, image_name, &mut image);
    if n <= MOST_IMAGE {
        list_image(rt, err, part(&image, 0, n), asked, image_name);
    }
}

// The arguments.

// The numbers of the arguments IMAGE and FORMAT, if they are there, and whether --all is among them.
#[derive(Clone, Copy)]
struct Arguments {
    image: Option<usize>,
    format: Option<usize>,
    all: bool,
}

fn is_all(rt: &impl Env, i: usize) -> bool {
    let mut word = [0u8; 5];
    match rt.arg(i, &mut word) {
        Ok(n) => &word[..n] == b"--all".as_slice(),
        Err(_) => false,
    }
}

// One argument more. A third besides --all is one too many: then there is no IMAGE.
fn taken(rt: &impl Env, before: Arguments, i: usize) -> Arguments {
    let mut a = before;
    if !has_argument(rt, i) {
        return a;
    }
    if is_all(rt, i) {
        a.all = true;
    } else if a.image.is_none() {
        a.image = Some(i);
    } else if a.format.is_none() {
        a.format = Some(i);
    } else {
        a.image = None;
    }
    a
}

fn read_arguments(rt: &impl Env) -> Arguments {
    let none = Arguments {
        image: None,
        format: None,
        all: false,
    };
    taken(rt, taken(rt, taken(rt, none, 1), 2), 3)
}

fn format_named(word: &[u8]) -> Option<Format> {
    match word {
        b"plain" => Some(Format::Plain),
        b"cisco" => Some(Format::Cisco),
        b"bird" => Some(Format::Bird),
        b"juniper" => Some(Format::Juniper),
        b"json" => Some(Format::Json),
        _ => None,
    }
}

// What is asked for: the number of the argument IMAGE, the format, and whether networks that are not active are listed too.
#[derive(Clone, Copy)]
struct Asked {
    image: usize,
    format: Format,
    all: bool,
}

// The format of a FORMAT, which is plain where there is none.
fn format_of(rt: &impl Env, i: Option<usize>) -> Option<Format> {
    let Some(i) = i else {
        return Some(Format::Plain);
    };
    let mut word = [0u8; 7];
    match rt.arg(i, &mut word) {
        Ok(n) => format_named(&word[..n]),
        Err(_) => None,
    }
}

// What the arguments ask for, if they are right: at most three.
fn read_asked(rt: &impl Env) -> Option<Asked> {
    if has_argument(rt, 4) {
        return None;
    }
    let a = read_arguments(rt);
    Some(Asked {
        image: a.image?,
        format: format_of(rt, a.format)?,
        all: a.all,
    })
}

fn run(rt: &(impl Files + Env + Print), err: &impl Print, asked: Asked) {
    let mut name = [0u8; MOST_NAME];
    if let Some(n) = argument(rt, err, asked.image, b"IMAGE", &mut name) {
        list_file(rt, err, &name[..n], asked);
    }
}

fn main(rt: HostRuntime) {
    let err = rt.stderr();
    match read_asked(&rt) {
        Some(asked) => run(&rt, &err, asked),
        None => tell(
            &err,
            b"usage: rdap_prefixes IMAGE [plain|cisco|bird|juniper|json] [--all]\n",
        ),
    }
}
