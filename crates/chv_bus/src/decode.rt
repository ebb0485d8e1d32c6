// Where an access goes.
ghost use Rattle.std.specs.Prelude.{◌≡◌, length, true};
ghost use Rattle.chv_defs_base.specs.Numbers.{le_field};
ghost use Rattle.chv_addr.specs.AddressMap.{place_of};
ghost use Rattle.chv_defs_guest.specs.Instruction.{is_asking};
ghost use Rattle.chv_defs_guest.specs.Routing.{load_route, put_route, route_of, store_route, window_route};

use chv_addr::{AddrMap, Place};
use chv_defs_api::RegAccess;
use chv_defs_base::Bytes;
use chv_defs_guest::{Route, Want};
use chv_num::get_le;

/// Where the access goes that an instruction asks for: to memory or to a device's window where all of its bytes lie in one
/// block or in one window, and to a port. Takes no memory; the address is looked up once.
pub fn route(map: &AddrMap, want: &Want) -> Route
    requires { is_asking want.now ≡ true }
    ensures { result ≡ route_of map.now want.now }
{
    match want {
        Want::Load { addr, width, .. } => load_route(map.find(*addr, *width as u64), *addr, *width),
        Want::Store { addr, bytes, put } => {
            let place = map.find(*addr, bytes.len() as u64);
            if *put {
                put_route(place)
            } else {
                store_route(place, *addr, bytes)
            }
        }
        Want::In { width, port, .. } => Route::Control(RegAccess::In {
            width: *width,
            port: *port,
        }),
        Want::Out { width, port, value } => Route::Control(RegAccess::Out {
            width: *width,
            port: *port,
            value: *value,
        }),
        Want::Nothing | Want::Halted => Route::Bad,
    }
}

// A load of so many bytes at an address, by their place.
fn load_route(place: Place, addr: u64, width: u8) -> Route
    ensures { result ≡ load_route place addr width }
{
    match place {
        Place::Ram {
            zone,
            block,
            offset,
        } => Route::Ram {
            zone,
            block,
            offset,
        },
        Place::Bar { .. } => Route::Control(RegAccess::MmioRead { width, addr }),
        Place::Hole => Route::Ones,
        Place::Crosses => Route::Bad,
    }
}

// The store of an `st`, by the place of its bytes.
fn store_route(place: Place, addr: u64, bytes: &Bytes) -> Route
    ensures { result ≡ store_route place addr bytes.now }
{
    match place {
        Place::Ram {
            zone,
            block,
            offset,
        } => Route::Ram {
            zone,
            block,
            offset,
        },
        Place::Bar { .. } => window_route(addr, bytes.as_slice()),
        Place::Hole => Route::Drop,
        Place::Crosses => Route::Bad,
    }
}

// A write of bytes to a window, as a number.
fn window_route(addr: u64, bytes: &[u8]) -> Route
    ensures { result ≡ window_route addr (length bytes.now) (le_field bytes.now 0 (length bytes.now)) }
{
    match get_le(bytes, 0, bytes.len()) {
        Some(value) => Route::Control(RegAccess::MmioWrite {
            width: bytes.len() as u8,
            addr,
            value,
        }),
        None => Route::Bad,
    }
}

// A `put`, by the place of its bytes.
fn put_route(place: Place) -> Route
    ensures { result ≡ put_route place }
{
    match place {
        Place::Ram {
            zone,
            block,
            offset,
        } => Route::Ram {
            zone,
            block,
            offset,
        },
        _ => Route::Bad,
    }
}
